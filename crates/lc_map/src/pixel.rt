// The byte of a pixel.
ghost use Rattle.std.specs.Prelude.{◌≡◌, ◌≤◌, ◌*◌, All, length};
ghost use Rattle.lc_record.specs.Record.{IsHeader, IsSample};
ghost use Rattle.lc_map.specs.Map.{bound_byte, byte_of, missed_byte, per_pixel, size_byte};

use crate::kind::Kind;
use crate::scale::{misses, sample_byte};
use lc_rated::Answer;
use lc_record::Header;

/// The greatest byte that some sample reaches in some channel.
fn bound_byte(samples: &[Answer]) -> u8
    requires { All (IsSample 65_536) samples.now }
    ensures { result ≡ bound_byte samples.now }
{
    let mut greatest = 0;
    for sample in samples {
        greatest = greatest.max(sample_byte(sample));
    }
    greatest
}

/// The mean size of the cuts as a share of the greatest size.
fn size_byte(greatest: u32, samples: &[Answer]) -> u8
    requires greatest { (1 ≤ greatest) × (greatest ≤ 65_536) }
    requires some { (1 ≤ length samples.now) × (length samples.now ≤ 256) }
    requires valid { All (IsSample greatest) samples.now }
    ensures { result ≡ size_byte greatest samples.now }
{
    let mut sum: u64 = 0;
    for sample in samples {
        sum += u64::from(sample.size);
    }
    (255 * sum / (samples.len() as u64 * u64::from(greatest))) as u8
}

/// How many of the samples miss the permille, as a share of all.
fn missed_byte(permille: u32, samples: &[Answer]) -> u8
    requires permille { permille ≤ 1000 }
    requires some { (1 ≤ length samples.now) × (length samples.now ≤ 256) }
    requires valid { All (IsSample 65_536) samples.now }
    ensures { result ≡ missed_byte permille samples.now }
{
    let mut count: u64 = 0;
    for sample in samples {
        if misses(permille, sample) {
            count += 1;
        }
    }
    (255 * count / samples.len() as u64) as u8
}

/// The byte of a pixel, by its samples.
pub(crate) fn byte_of(kind: Kind, header: &Header, samples: &[Answer]) -> u8
    requires header { IsHeader header.now }
    requires count { length samples.now ≡ per_pixel header.now }
    requires valid { All (IsSample header.now.cut) samples.now }
    ensures { result ≡ byte_of kind header.now samples.now }
{
    match kind {
        Kind::Bound => bound_byte(samples),
        Kind::Size => size_byte(header.cut, samples),
        Kind::Missed => missed_byte(header.permille, samples),
    }
}
