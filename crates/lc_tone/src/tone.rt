// From radiances to bytes.
ghost use Rattle.std.specs.Prelude.{◌≡◌, ◌≤◌};
ghost use Rattle.lc_tone.specs.Tone.{byte_of};

use lc_num::isqrt;

/// The radiance of a white point of one unit: `65536 * 10^13`.
const RADIANCE: u128 = 655_360_000_000_000_000;

/// The byte that shows a radiance in one channel, under a white point in units of 1/10000 (1 to 100,000,000): 255 from
/// the radiance `white * 65536 * 10^13` on, and below it 255 times the square root of the share of that radiance,
/// rounded down.
#[tactic(auto, unfolding(crate::specs::Tone::byte_of))]
pub fn byte(v: u128, white: u64) -> u8
    requires { white ≤ 100_000_000 }
    ensures { result ≡ byte_of v white }
{
    let full = u128::from(white) * RADIANCE;
    if v >= full {
        return 255;
    }
    isqrt(65_025 * v / full) as u8
}
