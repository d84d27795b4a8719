// What the words of a command may ask for, each with its range.
use lc_num::Vec3;
use std::marker::Model;

/// A place or a direction, each of whose coordinates is from -5000 to 5000, in units of 1/10000.
#[derive(Drop)]
pub struct Coordinates {
    pub vector: Vec3,
}

impl Model for Coordinates {
    ghost use Rattle.lc_num.specs.Vectors.{Within};
    ghost use Rattle.lc_num.specs.declared.vectors.Vec3.{Vec3};

    ghost Value = { Vec3 };

    ghost view = { λ c. c.vector };

    ghost inverse = { λ v. record { vector = v } };

    ghost invariant = { λ c. Within 50_000_000 c.vector };
}

/// The step of an audit, from 1 to 4,294,967,295 samples.
#[derive(Drop)]
pub struct AuditStep {
    pub samples: u64,
}

impl Model for AuditStep {
    ghost use Rattle.std.specs.Prelude.{ℕ, ◌≤◌};

    ghost Value = { ℕ };

    ghost view = { λ s. s.samples };

    ghost inverse = { λ n. record { samples = n } };

    ghost invariant = { λ s. (1 ≤ s.samples) × (s.samples ≤ 4_294_967_295) };
}

/// The number that a scene is made of, at most 9999.
#[derive(Drop)]
pub struct SceneNumber {
    pub number: u32,
}

impl Model for SceneNumber {
    ghost use Rattle.std.specs.Prelude.{ℕ, ◌≤◌};

    ghost Value = { ℕ };

    ghost view = { λ s. s.number };

    ghost inverse = { λ n. record { number = n } };

    ghost invariant = { λ s. s.number ≤ 9999 };
}
