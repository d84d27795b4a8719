// The scale of bounds: the byte that shows how great a bound is beside its estimate.
ghost use Rattle.std.specs.Prelude.{◌≡◌, ◌≤◌, ◌<◌, ◌*◌, ◌/◌, ◌^◌, min, nat_le};
ghost use Rattle.lc_algebra.specs.Greatest.{greatest_up_to};
ghost use Rattle.lc_num.specs.Channels.{IsRgbWithin};
ghost use Rattle.lc_record.specs.Record.{IsSample};
ghost use Rattle.lc_map.specs.Scale.{reaches, sample_reaches, share_of, misses};

use lc_rated::Answer;

/// The share of the estimate from which a bound is shown by the byte, in units of 1/32000.
fn share_of(byte: u32) -> u32
    requires { byte ≤ 255 }
    ensures { result ≡ share_of byte }
{
    (16 + byte % 16) << (byte / 16)
}

/// How great the bound is beside the estimate, in units of 1/32000 and rounded down; at most 32 times.
fn ratio(est: u128, bound: u128) -> u32
    requires some { 0 < est }
    requires est { est < 2 ^ 117 }
    requires bound { bound < 2 ^ 117 }
    ensures { result ≡ min 1_024_000 (32_000 * bound / est) }
{
    if bound / 32 >= est {
        return 1_024_000;
    }
    let scaled = 125 * bound;
    (256 * (scaled / est) + 256 * (scaled % est) / est) as u32
}

/// The greatest byte whose share is at most so much.
fn byte_within(ratio: u32) -> u8
    ensures { result ≡ greatest_up_to (λ byte. nat_le (share_of byte) ratio) 255 }
{
    let mut low: u32 = 0;
    let mut high: u32 = 256;
    while low + 1 < high {
        let middle = (low + high) / 2;
        if share_of(middle) <= ratio {
            low = middle;
        } else {
            high = middle;
        }
    }
    low as u8
}

/// The greatest byte that the bound reaches.
fn byte_reached(est: u128, bound: u128) -> u8
    requires est { est < 2 ^ 117 }
    requires bound { bound < 2 ^ 117 }
    ensures { result ≡ greatest_up_to (reaches est bound) 255 }
{
    if bound == 0 {
        return 0;
    }
    if est == 0 {
        return 255;
    }
    byte_within(ratio(est, bound))
}

/// The greatest byte that the bound of a sample reaches in some channel.
pub(crate) fn sample_byte(a: &Answer) -> u8
    requires { IsSample 65_536 a.now }
    ensures { result ≡ greatest_up_to (λ byte. sample_reaches byte a.now) 255 }
{
    let red = byte_reached(a.est.r, a.bound.r);
    let green = byte_reached(a.est.g, a.bound.g);
    let blue = byte_reached(a.est.b, a.bound.b);
    red.max(green.max(blue))
}

/// Whether the bound of a sample is above the permille of its estimate in some channel.
pub(crate) fn misses(permille: u32, a: &Answer) -> bool
    requires permille { permille ≤ 1000 }
    requires sample { IsSample 65_536 a.now }
    ensures { result ≡ misses permille a.now }
{
    let permille = u128::from(permille);
    let red = permille * a.est.r < 1000 * a.bound.r;
    let green = permille * a.est.g < 1000 * a.bound.g;
    let blue = permille * a.est.b < 1000 * a.bound.b;
    red || green || blue
}
