// The program: the words of the command line over the desk of the system.
#![tactic(auto)]

ghost use Rattle.std.specs.Prelude.{◌≡◌, ◌<◌};

use lc_desk::HostDesk;
use lc_num::Steps;
use lc_tool::run;
use std::alloc::{AllocError, Global};
use std::env;
use std::io::ErrorKind;
use std::marker::Brand;
use std::process::ExitCode;
use std::sync::ledger::{Blank, Ledger};

/// The words without the program's name. Words that are no text are no command, as no words are.
fn words(rt: &HostRuntime) -> Result<Vec<String>, AllocError> {
    let mut words = Vec::new(rt.alloc());
    match env::args(rt) {
        Ok(all) => {
            for word in all.skip(1) {
                words.push(word)?;
            }
        }
        Err(error) => {
            if error.kind() == ErrorKind::OutOfMemory {
                return Err(AllocError);
            }
        }
    }
    Ok(words)
}

fn texts<'a>(alloc: Global, words: &'a [String]) -> Result<Vec<&'a str>, AllocError> {
    let mut texts = Vec::new(alloc);
    for word in words {
        texts.push(word.as_str())?;
    }
    Ok(texts)
}

// Runs the words with a new counter of steps.
fn serve<L: Ledger>(rt: &HostRuntime, words: &[&str], blank: Blank) -> u8
    requires name { blank.name ≡ L.name }
    requires parts { blank.parts ≡ L.parts }
    requires some { 0 < blank.parts }
{
    let mut steps = Steps::<L>::start(blank);
    let errors = rt.stderr();
    run(
        rt.alloc(),
        words,
        &mut HostDesk::new(rt, &errors),
        &mut steps,
    )
}

fn status(rt: &HostRuntime) -> Result<u8, AllocError> {
    let words = words(rt)?;
    let texts = texts(rt.alloc(), &words)?;
    Ok(serve::<Brand>(rt, &texts, Blank::new(1)))
}

fn main(rt: HostRuntime) -> ExitCode {
    match status(&rt) {
        Ok(status) => ExitCode::from(status),
        Err(_) => ExitCode::from(1),
    }
}
