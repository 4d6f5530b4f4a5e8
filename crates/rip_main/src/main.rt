//! The program: the words come from the command line, the job from standard input; pictures go to standard output and
//! messages to standard error.
#![tactic(auto)]

use copy_lists::NoMemory;
use rip_ports::{StdSink, StdSource};
use rip_run::{Status, Word, rip_plain};
use std::alloc::{Alloc, Global};
use std::env::{self, Env};
use std::io::ErrorKind;
use std::process::ExitCode;
use std::rt::Clock;
use std::time::{SystemTime, UNIX_EPOCH};

fn main(rt: HostRuntime) -> ExitCode {
    let status = match words(&rt, rt.alloc()) {
        Ok(words) => rip_plain(
            rt.alloc(),
            words.as_slice(),
            moment(&rt),
            &mut StdSource::new(rt.stdin()),
            &mut StdSink::new(rt.stdout()),
            &mut StdSink::new(rt.stderr()),
        ),
        Err(NoMemory) => Status::NoMemory,
    };
    ExitCode::from(status.exit())
}

/// The words after the program's name. A word that is no UTF-8 text is in no grammar, so then there are none.
fn words<R: Env + Alloc>(rt: &R, alloc: Global) -> Result<Vec<Word>, NoMemory> {
    let mut words = Vec::new(alloc);
    match env::args(rt) {
        Ok(arguments) => {
            for argument in arguments.skip(1) {
                words.push(Word::from_text(alloc, argument.as_str())?)?;
            }
        }
        Err(error) if error.kind() == ErrorKind::InvalidData => {}
        Err(_) => return Err(NoMemory),
    }
    Ok(words)
}

/// Milliseconds since 1970, or 0 where the clock can't be read.
fn moment<R: Clock>(rt: &R) -> u64 {
    SystemTime::now(rt)
        .ok()
        .and_then(|now| now.duration_since(UNIX_EPOCH).ok())
        .and_then(|since| u64::try_from(since.as_millis()).ok())
        .unwrap_or(0)
}
