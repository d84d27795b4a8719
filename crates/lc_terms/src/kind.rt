// The kinds of light.
ghost use Rattle.std.specs.Prelude.{◌≡◌, ◌+◌, ◌≤◌};
ghost use Rattle.lc_num.specs.Vectors.{Within};
ghost use Rattle.lc_terms.specs.Kind.{Laws, Meaning};
ghost use Rattle.lc_terms.specs.Spot.{IsSpot};

use crate::spot::Spot;
use lc_num::{Power, Rgb, Rule, Vec3};

/// A kind of light, with the clumps that stand for many lights of it. The places of spots are at most 50,100,000 in
/// each component.
pub trait Kind {
    type Light: Copy;

    type Clump: Copy;

    /// What each call answers, by its name, and which lights and clumps are valid.
    ghost meaning: { Meaning Self.Light Self.Clump };

    /// The place of a light by which lists of lights are halved, in units of 1/10000.
    fn place(light: &Self::Light) -> Vec3
        requires { meaning.valid_light light.now }
        ensures { result ≡ meaning.place light.now };

    /// The intensity of a light, in units of 1/10000.
    fn power(light: &Self::Light) -> Power
        requires { meaning.valid_light light.now }
        ensures { result ≡ meaning.power light.now };

    /// The vector from a place toward a light.
    fn toward(x: Vec3, light: &Self::Light) -> Vec3
        requires x { Within 50_100_000 x }
        requires light { meaning.valid_light light.now }
        ensures { result ≡ meaning.toward x light.now };

    /// The end of the segment from a place that has to be free for the light to be seen there.
    fn target(x: Vec3, light: &Self::Light) -> Vec3
        requires x { Within 50_100_000 x }
        requires light { meaning.valid_light light.now }
        ensures { result ≡ meaning.target x light.now };

    /// The geometric term of a light at a place, at most `10^13`.
    fn geometry(x: Vec3, light: &Self::Light) -> u64
        requires x { Within 50_100_000 x }
        requires light { meaning.valid_light light.now }
        ensures { result ≡ meaning.geometry x light.now };

    /// The clump of one light.
    fn one(light: &Self::Light) -> Self::Clump
        requires { meaning.valid_light light.now }
        ensures { result ≡ meaning.one light.now };

    /// The clump of all lights of two clumps, which are at most 65,536 together.
    fn join(a: &Self::Clump, b: &Self::Clump) -> Self::Clump
        requires a { meaning.valid_clump a.now }
        requires b { meaning.valid_clump b.now }
        requires few { meaning.count a.now + meaning.count b.now ≤ 65_536 }
        ensures { result ≡ meaning.join a.now b.now };

    /// The summed intensity of a clump, in units of 1/10000.
    fn total(clump: &Self::Clump) -> Power
        requires { meaning.valid_clump clump.now }
        ensures { result ≡ meaning.total clump.now };

    /// The most that the lights of a clump can give to a spot, whichever of them stands for the others: a bound
    /// of their factors under a rule, times the summed intensity.
    fn top(spot: &Spot, clump: &Self::Clump, rule: Rule) -> Rgb
        requires spot { IsSpot spot.now }
        requires clump { meaning.valid_clump clump.now }
        ensures { result ≡ meaning.top spot.now clump.now rule };

    /// What every kind keeps.
    ghost laws: { Laws meaning };
}
