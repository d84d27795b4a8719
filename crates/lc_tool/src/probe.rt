// The command `probe`.
ghost use Rattle.std.specs.Prelude.{◌≡◌, ◌+◌, [], ◌∷◌, IfOk, Ok, Some};
ghost use Rattle.lc_light.specs.Lights.{AreLights};
ghost use Rattle.lc_terms.specs.Spot.{IsSpot};
ghost use Rattle.lc_desk.specs.declared.desk.Slot.TheVariants.{Report};
ghost use Rattle.lc_record.specs.Record.{IsSample};
ghost use Rattle.lc_tool.specs.Course.{at_once, told};
ghost use Rattle.lc_tool.specs.Outcome.{probe_spot, probe_answer, probe_course, probe_work};
ghost use Rattle.lc_tool.specs.Ends.{Ends, Counts, EndsAs};

use crate::note::note_memory;
use crate::ranges::Coordinates;
use crate::read::read_light_file;
use crate::status::{Status, Stop};
use crate::write::{put_report, settle};
use lc_cut::{Answer, Ask, Bench, Forest, cut};
use lc_desk::Desk;
use lc_hier::Plain;
use lc_light::Lights;
use lc_num::{Colour, List, Memory, Rule, Steps, Vec3, scaled};
use lc_record::{Line, line_text};
use lc_terms::Spot;
use std::alloc::Global;
use std::sync::ledger::Ledger;

const WHITE: Colour = Colour {
    r: 10_000,
    g: 10_000,
    b: 10_000,
};

/// A matte white spot at the place, with a normal in the direction.
fn spot_at(place: Coordinates, direction: Coordinates) -> Spot
    ensures value { result ≡ probe_spot place direction }
    ensures valid { IsSpot result }
{
    Spot {
        x: place.vector,
        n: scaled(direction.vector, 16_384),
        r: Vec3 { x: 0, y: 0, z: 0 },
        kd: WHITE,
        ks: Colour::BLACK,
        ns: 0,
    }
}

const ASK: Ask = Ask {
    permille: 20,
    size: 1000,
    rule: Rule::One,
};

/// The light of a file's lights at a spot, with no triangle between them.
fn answer_at<L: Ledger>(
    alloc: Global,
    place: Coordinates,
    direction: Coordinates,
    lights: &Lights,
    steps: &mut Steps<L>,
) -> Result<Answer, Memory>
    requires lights { AreLights lights.now }
    ensures value { IfOk result (λ answer. answer ≡ probe_answer place direction lights.now) }
    ensures sample { IfOk result (IsSample 65_536) }
    ensures steps { IfOk result (λ answer. steps.new ≡ steps.old + answer.evals) }
{
    let forest = Forest::build(alloc, lights, 0)?;
    let mut bench = Bench::new(alloc, ASK.size)?;
    let scene = Plain::new(List::new(alloc));
    let spot = spot_at(place, direction);
    Ok(cut(&mut bench, &forest, &spot, &scene, ASK, steps))
}

/// Puts the record line of an answer on Report.
fn report<D: Desk>(answer: &Answer, desk: &mut D) -> Status
    requires { IsSample 65_536 answer.now }
    ensures { Ends result (Report ∷ []) (Some (at_once (Ok (probe_work answer.now))))
        (D.state desk.old) (D.state desk.new) }
{
    let mut line = Line::new();
    line_text(answer, &mut line);
    match put_report(desk, line.as_slice()) {
        Ok(()) => Status::Done,
        Err(stop) => settle(desk, stop),
    }
}

/// Answers the light of a light file at a place, for a normal in a direction.
pub fn probe<D: Desk, L: Ledger>(
    alloc: Global,
    name: &str,
    place: Coordinates,
    direction: Coordinates,
    desk: &mut D,
    steps: &mut Steps<L>,
) -> Status
    ensures ends { EndsAs result (Report ∷ []) (probe_course name.now place direction)
        (D.state desk.old) (D.state desk.new) }
    ensures counted { Counts result (told (probe_course name.now place direction) (D.state desk.old).held)
        steps.old steps.new }
{
    let lights = match read_light_file(alloc, name, 0, desk) {
        Ok(lights) => lights,
        Err(stop) => return Status::Stopped(stop),
    };
    match answer_at(alloc, place, direction, &lights, steps) {
        Ok(answer) => report(&answer, desk),
        Err(Memory) => {
            note_memory(desk);
            Status::Stopped(Stop::Memory)
        }
    }
}
