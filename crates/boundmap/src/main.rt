// The program: the words of the command line over the desk of the system.
#![tactic(auto)]

use lc_desk::HostDesk;
use lc_map::run;
use std::alloc::{AllocError, Global};
use std::env;
use std::io::ErrorKind;
use std::process::ExitCode;

/// The words without the program's name. Words that are no text are no order, as no words are.
fn words(rt: &HostRuntime) -> Result<Vec<String>, AllocError> {
    let mut words = Vec::new(rt.alloc());
    match env::args(rt) {
        Ok(all) => {
            for word in all.skip(1) {
                words.push(word)?;
            }
        }
        Err(error) => {
            if error.kind() == ErrorKind::OutOfMemory {
                return Err(AllocError);
            }
        }
    }
    Ok(words)
}

fn texts<'a>(alloc: Global, words: &'a [String]) -> Result<Vec<&'a str>, AllocError> {
    let mut texts = Vec::new(alloc);
    for word in words {
        texts.push(word.as_str())?;
    }
    Ok(texts)
}

fn status(rt: &HostRuntime) -> Result<u8, AllocError> {
    let words = words(rt)?;
    let texts = texts(rt.alloc(), &words)?;
    let errors = rt.stderr();
    Ok(run(rt.alloc(), &texts, &mut HostDesk::new(rt, &errors)).code())
}

fn main(rt: HostRuntime) -> ExitCode {
    match status(&rt) {
        Ok(status) => ExitCode::from(status),
        Err(_) => ExitCode::from(1),
    }
}
