//! A server before its callers come, and what is told behind it.

use crate::asked::Ask;
use crate::callers::Doorways;
use ep_real::{Begun, Beside, Missing, RealDoors, begin, run_words};
use ep_run::Status;
use std::alloc::{AllocError, Global};
use std::fs::{File, Files};
use std::io::{Eprint, Input, Print};
use std::net::Net;
use std::random::RandomSource;
use std::sync::Wait;
use std::thread::{JoinHandle, Threads};
use std::time::Clock;

/// The words of a server, and what is asked of it behind a writer.
pub struct Turn {
    pub words: [&'static str; 5],
    pub asks: &'static [Ask],
}

// The system chooses the port.
const ANY: &str = "127.0.0.1:0";

/// The first server: its key, and one that is wrong; and a text of a million units, and one of a unit more.
const FIRST: &[Ask] = &[
    ("getText", "apikey=one&padID=p", 0),
    ("getText", "apikey=two&padID=p", 0),
    ("createGroup", "apikey=one", 0),
    ("createPad", "apikey=one&padID=q&text=", 999_999),
    ("setText", "apikey=one&padID=q&text=", 1_000_000),
];

/// The second one, whose key is the first line of a file.
const SECOND: &[Ask] = &[
    ("getText", "apikey=two&padID=p", 0),
    ("getText", "apikey=one&padID=p", 0),
    ("getText", "apikey=%40key&padID=p", 0),
    ("listAllGroups", "apikey=two", 0),
    ("getRevisionsCount", "apikey=two&padID=q", 0),
];

/// The servers that are begun, one after the other.
pub const TURNS: &[Turn] = &[
    Turn {
        words: ["serve", ANY, ANY, "pads", "one"],
        asks: FIRST,
    },
    Turn {
        words: ["serve", ANY, ANY, "pads", "@key"],
        asks: SECOND,
    },
    Turn {
        words: ["serve", ANY, ANY, "pads", "@nokey"],
        asks: &[],
    },
    Turn {
        words: ["serve", ANY, ANY, "nowhere", "one"],
        asks: &[],
    },
    Turn {
        words: ["serve", ANY, "nowhere", "pads", "one"],
        asks: &[],
    },
];

/// Words as the program is given them.
pub fn words_of(alloc: Global, words: &[&str]) -> Result<Vec<String>, AllocError> {
    let mut given = Vec::new(alloc);
    for word in words {
        given.push(String::from_str(alloc, word)?)?;
    }
    Ok(given)
}

/// A server before its callers come.
#[derive(Drop)]
pub struct Stands<R: Wait + Net + RandomSource + Clock + Copy + Drop> {
    pub begun: Begun<R>,
    pub doors: RealDoors<R>,
    pub ways: Doorways,
}

/// Begins a server. As many callers may come as there are requests, and a writer.
pub fn stand<R>(
    rt: R,
    files: HostRuntime,
    words: &[String],
    asks: &[Ask],
) -> Result<(Stands<R>, Beside<R>), Missing>
where
    R: Threads
        + Wait
        + Net
        + RandomSource
        + Clock
        + AllocGlobal
        + Files<File = File>
        + Copy
        + Send
        + Drop
        + 'static,
{
    let (begun, beside) = begin(rt, files, words)?;
    let mut doors = RealDoors::by(rt, words)?;
    let Some((pads, api)) = doors.addresses() else {
        return Err(Missing::Address);
    };
    doors.end_after((asks.len() as u64).saturating_add(1));
    let ways = Doorways { pads, api };
    Ok((Stands { begun, doors, ways }, beside))
}

/// What the callers of a server that has ended were told, and its status.
pub fn told<R: Threads>(
    rt: &R,
    alloc: Global,
    callers: JoinHandle<Result<String, Missing>>,
    ended: Result<Status, Missing>,
) -> Result<String, Missing> {
    let told = callers.join(rt)?;
    Ok(format!(in alloc; "{told}serve: {}\n", ended?.code)?)
}

/// Judges the pads of the folder that was served.
pub fn judge<R>(rt: R, files: HostRuntime) -> Result<Status, Missing>
where
    R: Wait
        + Threads
        + Net
        + RandomSource
        + Clock
        + Input
        + Print
        + Eprint
        + AllocGlobal
        + Files<File = File>
        + Copy
        + Send
        + Drop
        + 'static,
{
    let words = words_of(rt.alloc(), &["verify", "pads", "2"])?;
    run_words(rt, files, false, &words)
}
