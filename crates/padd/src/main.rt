//! `padd`, the server of a collaborative pad.
//!
//! Words that ask for a pad to be moved are `move_pad`'s. All else that the program does is `run`, over the real devices
//! that its words speak of; `ep_real` opens these.
#![tactic(auto)]

mod moving;

use crate::moving::answered;
use ep_doors::start_all;
use ep_real::{Beside, Missing, RealDoors, begin, run_begun};
use std::io::{ErrorKind, IsTerminal};
use std::process::ExitCode;
use std::{env, io, thread};

/// The words behind the program's name, or none where one is not UTF-8.
fn given_words(rt: &HostRuntime) -> io::Result<Vec<String>> {
    let mut words = Vec::new(rt.alloc());
    let args = match env::args(rt) {
        Err(error) if error.kind() == ErrorKind::InvalidData => return Ok(words),
        args => args?,
    };
    for word in args.skip(1) {
        words.push(word)?;
    }
    Ok(words)
}

/// Says what is missing, in one line.
pub(crate) fn lacking(rt: &HostRuntime, missing: Missing) -> ExitCode {
    let _told = eprintln!(rt; "padd: {missing}");
    ExitCode::from(missing.status())
}

fn main(rt: HostRuntime) -> ExitCode {
    let Ok(words) = given_words(&rt) else {
        return ExitCode::from(7);
    };
    if let Some(code) = answered(rt, &words) {
        return code;
    }
    let (
        begun,
        Beside {
            starter,
            database: _,
        },
    ) = match begin(rt, rt, &words) {
        Ok(begun) => begun,
        Err(missing) => return lacking(&rt, missing),
    };
    let mut doors = match RealDoors::by(rt, &words) {
        Ok(doors) => doors,
        Err(missing) => return lacking(&rt, missing),
    };
    let is_watched = rt.stderr().is_terminal();
    // The threads of callers are started by a thread of its own; what the words ask for is done in this one.
    let Ok(starting) = thread::spawn(&rt, move || start_all(&rt, starter)) else {
        return lacking(&rt, Missing::Thread);
    };
    let ended = run_begun(rt, is_watched, &words, begun, &mut doors);
    starting.join(&rt);
    match ended {
        Ok(status) => ExitCode::from(status.code),
        Err(missing) => lacking(&rt, missing),
    }
}
