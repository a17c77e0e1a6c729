//! Worked rows of messages: JSON Lines in, JSON Lines out, one reply to each request.
//!
//! A request names a call of `ep_wire`: `read_client` and `read_server` with a `text` and a `limit`, `write_client` and
//! `write_server` with a `value`. The reply has the `value` that was read, or why none was (`refused`), or the `text` that
//! was written. Values have a `kind` and the fields of that kind; each changeset in them has a pool of its own.
#![tactic(auto)]

mod answer;
mod asked;
mod message;
mod refusal;
mod stop;
mod told;

use crate::answer::answer;
use std::io::{self, ErrorKind};

fn main(rt: HostRuntime) -> io::Result<()> {
    let alloc = rt.alloc();
    for line in rt.lines(alloc) {
        match line {
            Ok(line) if line.is_empty() => {}
            Ok(line) => {
                let reply = answer(alloc, &line)?;
                println!(rt; "{reply}")?;
            }
            Err(error) if error.kind() == ErrorKind::InvalidData => {
                let reply = answer(alloc, "")?;
                println!(rt; "{reply}")?;
            }
            Err(error) => return Err(error),
        }
    }
    Ok(())
}
