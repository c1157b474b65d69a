//! The program `cophy`: hands the words of its command line, the system's files and the standard output to `run`, and
//! ends with the status that `run` gives.
#![tactic(auto)]

use adv_shelf::{DiskShelf, StdSink};
use cophy_core::run;
use std::process::ExitCode;
use std::{env, io};

/// The status where the words of the command line are no text.
const NO_TEXT: u8 = 2;

/// The status where memory ran out before there were any words.
const NO_MEMORY: u8 = 7;

/// The words behind the program's name.
fn words(rt: &HostRuntime) -> io::Result<Vec<String>> {
    let mut words = Vec::new(rt.alloc());
    for word in env::args(rt)?.skip(1) {
        words.push(word)?;
    }
    Ok(words)
}

fn main(rt: HostRuntime) -> ExitCode {
    let words = match words(&rt) {
        Ok(words) => words,
        Err(e) if e.kind() == io::ErrorKind::OutOfMemory => return ExitCode::from(NO_MEMORY),
        Err(_) => return ExitCode::from(NO_TEXT),
    };
    let mut shelf = DiskShelf::new(&rt);
    let mut out = StdSink::new(io::writer(&rt));
    let outcome = run(rt.alloc(), words.as_slice(), &mut shelf, &mut out);
    ExitCode::from(outcome.status)
}
