// Guesses of roots, by a table and multiplications alone. Their users set them right in a bounded number of steps, so a
// guess decides only the speed.
ghost use Rattle.std.specs.Prelude.{◌^◌, ◌<◌, ◌≤◌};

// `2^15 / sqrt(p)`, for p at the middle of each 256th from 64/256 on.
static RECIPROCAL_ROOTS: [u16; 192] = [
    65281, 64781, 64292, 63814, 63346, 62889, 62441, 62003, 61574, 61154, 60742, 60338, 59943,
    59555, 59174, 58801, 58434, 58075, 57722, 57375, 57035, 56700, 56371, 56048, 55731, 55418,
    55111, 54809, 54512, 54220, 53932, 53649, 53371, 53096, 52826, 52560, 52298, 52039, 51785,
    51534, 51287, 51043, 50803, 50566, 50333, 50102, 49875, 49651, 49430, 49212, 48996, 48784,
    48574, 48367, 48162, 47960, 47761, 47564, 47369, 47177, 46987, 46800, 46614, 46431, 46250,
    46071, 45894, 45720, 45547, 45376, 45207, 45040, 44874, 44711, 44549, 44389, 44231, 44074,
    43920, 43766, 43615, 43464, 43316, 43169, 43023, 42879, 42736, 42595, 42455, 42317, 42179,
    42044, 41909, 41776, 41644, 41513, 41383, 41255, 41128, 41002, 40877, 40754, 40631, 40510,
    40389, 40270, 40152, 40034, 39918, 39803, 39689, 39575, 39463, 39352, 39241, 39132, 39023,
    38916, 38809, 38703, 38598, 38494, 38391, 38288, 38186, 38085, 37985, 37886, 37788, 37690,
    37593, 37497, 37401, 37306, 37212, 37119, 37026, 36934, 36843, 36752, 36662, 36573, 36484,
    36396, 36309, 36222, 36136, 36050, 35965, 35881, 35797, 35714, 35632, 35550, 35468, 35387,
    35307, 35227, 35148, 35069, 34991, 34913, 34836, 34759, 34683, 34608, 34533, 34458, 34384,
    34310, 34237, 34164, 34092, 34020, 33948, 33877, 33807, 33737, 33667, 33598, 33529, 33461,
    33393, 33325, 33258, 33192, 33125, 33059, 32994, 32929, 32864, 32800,
];

// 3 in units of 1 / 2^30.
const THREE: u64 = 3 << 30;

/// About `2^63 / sqrt(leading)`, for a number from 2^62 on.
fn reciprocal_root(leading: u64) -> u64 {
    let place = ((leading >> 56) as usize).max(64) - 64;
    let high = leading >> 32;
    // Newton's rule for 1 / sqrt(p): r becomes r * (3 - p * r^2) / 2.
    let root = RECIPROCAL_ROOTS[place] as u64;
    let near = root.wrapping_mul(root).wrapping_mul(high) >> 32;
    let root = root.wrapping_mul(THREE.wrapping_sub(near)) >> 15;
    let near = (root.wrapping_mul(root) >> 32).wrapping_mul(high) >> 32;
    root.wrapping_mul(THREE.wrapping_sub(near)) >> 31
}

/// About the root of a number.
pub fn root_guess(n: u64) -> u64
    ensures { result < 2 ^ 32 }
{
    let half = n.leading_zeros().min(63) / 2;
    let leading = n << (2 * half);
    let root = (leading >> 32).wrapping_mul(reciprocal_root(leading)) >> 31;
    (root >> half).min(0xffff_ffff)
}

/// About 65536 times `along` over the root of `squares`.
pub fn cosine_guess(along: u64, squares: u128) -> u64
    requires { 0 < squares }
    ensures { result ≤ 65536 }
{
    let half = squares.leading_zeros() / 2;
    let leading = ((squares << (2 * half)) >> 64) as u64;
    let along = (along << half) >> 32;
    (along.wrapping_mul(reciprocal_root(leading)) >> 47).min(65536)
}
