// The tree over three lights, worked out by hand, and the tree over none.
ghost use Rattle.std.specs.Prelude.{◌≤◌, ◌^◌, pos};
ghost use Rattle.lc_num.specs.Vectors.{Within};
ghost use Rattle.lc_scene_tests.specs.Lamps.{IsLamp};

use crate::lamps::Dark;
use lc_num::{Memory, Power, Rgb, Rule, Vec3};
use lc_terms::{Kind, Spot};
use lc_tree::Tree;
use std::test::*;

/// A lamp on the x axis, of one intensity in each channel.
fn lamp(x: i64, power: u64) -> (Vec3, Power)
    requires place { Within 50_000_000 (record { x = x; y = pos 0; z = pos 0 }) }
    requires power { power ≤ 10 ^ 8 }
    ensures { IsLamp result }
{
    (
        Vec3 { x, y: 0, z: 0 },
        Power {
            r: power,
            g: power,
            b: power,
        },
    )
}

#[test]
fn three_lamps(rt: HostRuntime) -> Result<(), Fail> {
    let lamps = [lamp(20000, 0), lamp(0, 0), lamp(10000, 10000)];
    let tree = Tree::<Dark>::build(rt.alloc(), &lamps, 7, 0)?;
    assert_eq!(rt; tree.count(), 5);
    let kids = [Some((1, 2)), None, Some((3, 4)), None, None];
    let leaders = [2, 1, 2, 2, 0];
    let weights = [30000, 0, 30000, 30000, 0];
    let members: [&[u32]; 5] = [&[1, 2, 0], &[1], &[2, 0], &[2], &[0]];
    for node in 0..5 {
        if node < tree.count() {
            assert_eq!(rt; tree.kids(node), kids[node as usize], "at {node}");
            assert_eq!(rt; tree.leader(node), leaders[node as usize], "at {node}");
            assert_eq!(rt; tree.weight(node), weights[node as usize], "at {node}");
            assert_eq!(rt; tree.members(node), members[node as usize], "at {node}");
        }
    }
    Ok(())
}

#[test]
fn no_lamps(rt: HostRuntime) -> Result<(), Fail> {
    let tree = Tree::<Dark>::build(rt.alloc(), &[], 7, 0)?;
    assert_eq!(rt; tree.count(), 0);
    Ok(())
}
