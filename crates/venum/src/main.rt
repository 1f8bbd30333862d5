//! The program `venum`: its words, streams and status.
#![tactic(auto)]

use std::env;
use std::io::ErrorKind;
use std::process::ExitCode;
use ve_main::run_alone;
use ve_port::{FromRead, ToWrite};

/// The status for want of memory before the run.
const NO_MEMORY: u8 = 6;

/// The status for words that are no text.
const NO_WORDS: u8 = 8;

fn main(rt: HostRuntime) -> ExitCode {
    let words = match env::args(&rt) {
        Ok(words) => words,
        Err(fault) if fault.kind() == ErrorKind::OutOfMemory => return ExitCode::from(NO_MEMORY),
        Err(_) => return ExitCode::from(NO_WORDS),
    };
    let Ok(words) = words.collect(rt.alloc()) else {
        return ExitCode::from(NO_MEMORY);
    };
    let mut source = FromRead::new(rt.stdin());
    let mut out = ToWrite::new(rt.stdout());
    let mut err = ToWrite::new(rt.stderr());
    ExitCode::from(run_alone(rt.alloc(), &words, &mut source, &mut out, &mut err))
}
