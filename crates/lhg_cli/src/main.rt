//! Safety controllers for linear hybrid automata.
#![tactic(auto)]

mod answers;
mod checking;
#[cfg(test)]
mod controller_tests;
mod explainer;
mod explaining;
#[cfg(test)]
mod game_tests;
#[cfg(test)]
mod hostile_tests;
mod inputs;
mod judging;
mod lazing;
mod migrating;
#[cfg(test)]
mod plant_texts;
mod reaching;
mod refusing;
#[cfg(test)]
mod region_tests;
mod request;
mod running;
mod solving;
mod spoiling;
mod status;
mod summing;
mod synthesis;
#[cfg(test)]
mod tests;
mod top;
mod words;

use lhg_io::{StdSink, StdSource};
pub use status::Status;
use std::alloc::AllocError;
use std::io::ErrorKind;
use std::process::ExitCode;
use std::{env, io};
pub use top::lhg;

// The words behind the program's name. Where the system has one that is no text, they are none, which the program does not know either.
fn given_words(rt: &HostRuntime) -> Result<Vec<String>, AllocError> {
    match env::args(rt) {
        Ok(args) => args.skip(1).collect(rt.alloc()),
        Err(error) => match error.kind() {
            ErrorKind::OutOfMemory => Err(AllocError),
            _ => Ok(Vec::new(rt.alloc())),
        },
    }
}

fn main(rt: HostRuntime) -> ExitCode {
    let Ok(words) = given_words(&rt) else {
        return ExitCode::from(Status::Memory.number());
    };
    let mut source = StdSource::new(rt.reader());
    let mut sink = StdSink::new(io::writer(&rt));
    let status = lhg(rt.alloc(), words.as_slice(), &mut source, &mut sink);
    ExitCode::from(status.number())
}
