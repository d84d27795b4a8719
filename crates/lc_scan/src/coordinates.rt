// Numbers that are coordinates.
ghost use Rattle.std.specs.Prelude.{◌≡◌};
ghost use Rattle.lc_scan.specs.Coordinates.{is_coordinate, is_place};

use lc_num::Vec3;

/// 5000, in units of 1/10000.
const MOST_COORDINATE: u64 = 50_000_000;

/// Whether a number of units is from -5000 to 5000.
pub fn is_coordinate(units: i64) -> bool
    ensures { result ≡ is_coordinate units }
{
    units.unsigned_abs() <= MOST_COORDINATE
}

/// Whether each of the three numbers is a coordinate.
pub fn is_place(v: Vec3) -> bool
    ensures { result ≡ is_place v }
{
    is_coordinate(v.x) && is_coordinate(v.y) && is_coordinate(v.z)
}
