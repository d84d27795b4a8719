// The plainest kind of light.
ghost use Rattle.lc_scene_tests.specs.Lamps.{lamp_laws, lamp_meaning};

use lc_num::{Power, Rgb, Rule, Vec3};
use lc_terms::{Kind, Spot};

/// Lamps that give no light.
pub struct Dark;

impl Kind for Dark {
    type Light = (Vec3, Power);

    type Clump = (Power, u32);

    ghost meaning = { lamp_meaning };

    ghost laws = { lamp_laws };

    fn place(light: &(Vec3, Power)) -> Vec3 {
        light.0
    }

    fn power(light: &(Vec3, Power)) -> Power {
        light.1
    }

    fn toward(_x: Vec3, _light: &(Vec3, Power)) -> Vec3 {
        Vec3 { x: 0, y: 0, z: 0 }
    }

    fn target(_x: Vec3, _light: &(Vec3, Power)) -> Vec3 {
        Vec3 { x: 0, y: 0, z: 0 }
    }

    fn geometry(_x: Vec3, _light: &(Vec3, Power)) -> u64 {
        0
    }

    fn one(light: &(Vec3, Power)) -> (Power, u32) {
        (light.1, 1)
    }

    fn join(a: &(Power, u32), b: &(Power, u32)) -> (Power, u32) {
        let total = Power {
            r: a.0.r + b.0.r,
            g: a.0.g + b.0.g,
            b: a.0.b + b.0.b,
        };
        (total, a.1 + b.1)
    }

    fn total(clump: &(Power, u32)) -> Power {
        clump.0
    }

    fn top(_spot: &Spot, _clump: &(Power, u32), _rule: Rule) -> Rgb {
        Rgb { r: 0, g: 0, b: 0 }
    }
}
