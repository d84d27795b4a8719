// The words of the command line.
ghost use Rattle.std.specs.Prelude.{◌≡◌, ◌≤◌, option_map, IfSome, unsigned_abs};
ghost use Rattle.lc_scan.specs.Whole.{whole_of};
ghost use Rattle.lc_tool.specs.Words.{command_of, audit_of, probe_of, make_of, coordinate, vector_of, texts};
ghost use Rattle.lc_tool.specs.Meant.{meant};

use crate::ranges::{AuditStep, Coordinates, SceneNumber};
use lc_num::Vec3;
use lc_scan::{decimal, whole};

/// A command.
#[derive(Drop)]
pub enum Command<'a> {
    /// The light of a light file at a place, for a normal in a direction.
    Probe {
        lights: &'a str,
        place: Coordinates,
        direction: Coordinates,
    },
    /// The picture and the record of a job.
    Render {
        job: &'a str,
    },
    /// The picture of a job by the sum over all lights.
    Plain {
        job: &'a str,
    },
    /// The check of a job's record at each sample whose number the step divides.
    Audit {
        job: &'a str,
        step: AuditStep,
    },
    /// The picture and the record of the scene that is made of a number.
    Make {
        number: SceneNumber,
    },
}

/// The greatest coordinate, 5000 in units of 1/10000.
const MOST: u64 = 50_000_000;

/// The greatest step of an audit.
const LAST_STEP: u64 = 4_294_967_295;

/// The greatest number that a scene is made of.
const LAST_SCENE: u64 = 9999;

#[tactic(auto, unfolding(crate::specs::Words::coordinate))]
fn coordinate(word: &str) -> Option<i64>
    ensures value { result ≡ coordinate word.now }
    ensures within { IfSome result (λ z. unsigned_abs z ≤ 50_000_000) }
{
    match decimal(word.as_bytes()) {
        Ok(number) if number.unsigned_abs() <= MOST => Some(number),
        _ => None,
    }
}

fn vector(x: &str, y: &str, z: &str) -> Option<Coordinates>
    ensures value { result ≡ vector_of (coordinate x.now) (coordinate y.now) (coordinate z.now) }
{
    let x = coordinate(x)?;
    let y = coordinate(y)?;
    let z = coordinate(z)?;
    Some(Coordinates {
        vector: Vec3 { x, y, z },
    })
}

/// The command `probe`, where its two vectors are some.
fn probe_command<'a>(
    lights: &'a str,
    place: Option<Coordinates>,
    direction: Option<Coordinates>,
) -> Option<Command<'a>>
    ensures value { option_map meant result ≡ probe_of lights.now place direction }
{
    Some(Command::Probe {
        lights,
        place: place?,
        direction: direction?,
    })
}

/// The command `audit`, where its step is one.
fn audit_command<'a>(job: &'a str, step: &str) -> Option<Command<'a>>
    ensures value { option_map meant result ≡ audit_of job.now (whole_of step.now) }
{
    match whole(step.as_bytes()) {
        Ok(samples) if 1 <= samples && samples <= LAST_STEP => Some(Command::Audit {
            job,
            step: AuditStep { samples },
        }),
        _ => None,
    }
}

/// The command `make`, where its number is one.
fn make_command<'a>(number: &str) -> Option<Command<'a>>
    ensures value { option_map meant result ≡ make_of (whole_of number.now) }
{
    match whole(number.as_bytes()) {
        Ok(number) if number <= LAST_SCENE => Some(Command::Make {
            number: SceneNumber {
                number: number as u32,
            },
        }),
        _ => None,
    }
}

/// The command that the words are.
pub fn read_words<'a>(words: &[&'a str]) -> Option<Command<'a>>
    ensures value { option_map meant result ≡ command_of (texts words.now) }
{
    match words {
        [word, lights, x, y, z, nx, ny, nz] if *word == "probe" => {
            probe_command(lights, vector(x, y, z), vector(nx, ny, nz))
        }
        [word, job] if *word == "render" => Some(Command::Render { job }),
        [word, job] if *word == "plain" => Some(Command::Plain { job }),
        [word, job, step] if *word == "audit" => audit_command(job, step),
        [word, number] if *word == "make" => make_command(number),
        _ => None,
    }
}
