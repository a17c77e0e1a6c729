//! The program's server over a folder and sockets of this machine. A writer and callers of its API come to it; it ends, and
//! is opened again over the same folder, with another key. Then its pads are judged, and servers are begun that lack
//! something. Ids are random: those of groups are shown as `g.`.
#![tactic(auto)]

mod asked;
mod callers;
mod turn;

use crate::callers::visit;
use crate::turn::{Stands, TURNS, judge, stand, told, words_of};
use ep_doors::start_all;
use ep_real::{Beside, Missing, run_begun};
use ep_run::Status;
use std::{fs, io, thread};

fn print_lines(rt: &HostRuntime, lines: Result<String, Missing>) -> io::Result<()> {
    match lines {
        Ok(lines) => print!(rt; "{lines}"),
        Err(missing) => println!(rt; "{}: {missing}", missing.status()),
    }
}

fn print_status(rt: &HostRuntime, status: Result<Status, Missing>) -> io::Result<()> {
    match status {
        Ok(status) => println!(rt; "{}", status.code),
        Err(missing) => println!(rt; "{}: {missing}", missing.status()),
    }
}

// Whoever comes to a server is in a thread of its own, and so is who starts threads for it. They are begun here, since
// only `main` has the runtime that begins threads.
fn main(rt: HostRuntime) -> io::Result<()> {
    fs::create_dir(&rt, "pads")?;
    fs::write(&rt, "key", "two\none\n")?;
    for (number, turn) in TURNS.iter().enumerate() {
        let [_, _, _, folder, key] = turn.words;
        println!(rt; "serve {folder} {key}")?;
        let words = words_of(rt.alloc(), &turn.words)?;
        let (stands, beside) = match stand(rt, rt, &words, turn.asks) {
            Ok(begun) => begun,
            Err(missing) => {
                print_lines(&rt, Err(missing))?;
                continue;
            }
        };
        let Stands {
            begun,
            mut doors,
            ways,
        } = stands;
        let Beside { starter, database } = beside;
        let starting = thread::spawn(&rt, move || start_all(&rt, starter))?;
        let callers = thread::spawn(&rt, move || visit(rt, rt, ways, number))?;
        let ended = run_begun(rt, false, &words, begun, &mut doors);
        starting.join(&rt);
        let lines = told(&rt, rt.alloc(), callers, ended);
        database.join(&rt);
        print_lines(&rt, lines)?;
    }
    println!(rt; "verify pads")?;
    print_status(&rt, judge(rt, rt))
}
