// A light file read line by line.
ghost use Rattle.std.specs.Prelude.{◌≡◌, ◌++◌, ◌≤◌, length, None, OnOk, IfOk, IfErr};
ghost use Rattle.lc_light.specs.Areas.{samples_from};
ghost use Rattle.lc_light.specs.Lights.{AreLights};
ghost use Rattle.lc_light.specs.LightFile.{HaveAsAreas, fault_in, lights, IsStop};
ghost use Rattle.lc_light.specs.Sources.{IsSource, points, samples, suns};
ghost use Rattle.lc_words.specs.Words.{after, word_of};

use crate::lights::Lights;
use crate::line::source_in;
use crate::source::Source;
use crate::stop::LightStop;
use lc_num::{List, Memory};
use lc_scan::{Lines, next_spoken};
use lc_words::Stream;
use std::alloc::Global;

// The stream whose words give the samples of area lights their places.
const AREA_STREAM: u64 = 3;

/// Adds the lights of a source; each sample of an area light takes a word.
fn add(lights: &mut Lights, source: Source, words: &mut Stream) -> Result<(), Memory>
    requires { IsSource source }
    ensures omni { OnOk result (lights.new.omni ≡ lights.old.omni ++ points source) }
    ensures oriented { OnOk result (lights.new.oriented
        ≡ lights.old.oriented ++ samples_from (word_of words.old) 0 (samples source)) }
    ensures sun { OnOk result (lights.new.sun ≡ lights.old.sun ++ suns source) }
    ensures words { OnOk result (words.new ≡ after words.old (length (samples source))) }
{
    match source {
        Source::Point(omni) => lights.omni.push(omni),
        Source::Sun(sun) => lights.sun.push(sun),
        Source::Area(area) => area.add_samples(&mut lights.oriented, words),
    }
}

/// The lights of a light file of at most 512 MiB, or its first fault. An area light becomes its samples, oriented
/// lights whose places are picked by the words of the seed, in the order of the file.
pub fn read_lights(alloc: Global, bytes: &[u8], seed: u64) -> Result<Lights, LightStop>
    requires { length bytes.now ≤ 536_870_912 }

    // Lights come only where no line is faulty, and then they are the text's.
    ensures ok { IfOk result (λ read. (fault_in bytes.now ≡ None) × (read ≡ lights bytes.now seed)) }

    // A fault is the first one.
    ensures fault { IfErr result (λ stop. IsStop stop (fault_in bytes.now)) }

    // The lights are in their ranges.
    ensures valid { IfOk result AreLights }
{
    let mut lights = Lights {
        omni: List::new(alloc),
        oriented: List::new(alloc),
        sun: List::new(alloc),
    };
    let mut words = Stream::new(seed, AREA_STREAM);
    let mut so_far = 0;
    let mut lines = Lines::new(bytes);
    while let Some((number, line)) = next_spoken(&mut lines) {
        match source_in(line, so_far) {
            Ok(source) => {
                add(&mut lights, source, &mut words)?;
                so_far += source.count();
            }
            Err(kind) => {
                return Err(LightStop::Fault {
                    line: number,
                    kind: kind.number(),
                });
            }
        }
    }
    Ok(lights)
}

/// In each channel, the oriented lights of a file without a fault have together what its area lights have.
pub fn oriented_powers_are_those_of_areas()
    ensures red { HaveAsAreas (λ power. power.r) }
    ensures green { HaveAsAreas (λ power. power.g) }
    ensures blue { HaveAsAreas (λ power. power.b) }
{}
