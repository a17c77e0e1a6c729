//! A client over a link: it writes what a script says.
//!
//! `write_session` enters a pad over any link and writes the lines of any source, one behind the other. What it did is one
//! list, its log, of which the walk in `specs/Writer` says which there may be. The crates above may rest on that, and on the
//! laws of the walk in `laws`. It is not for what a server answers, nor for how messages travel.
#![tactic(auto)]

mod bad;
mod hear;
mod laws;
mod lines;
mod say;
mod submit;
mod writer;

pub use bad::{PeerBad, Reason};
pub use laws::{
    alters_where_it_says_something, answers_each_line, asks_with_nothing_of_its_own,
    ends_when_committed, reads_when_committed, sends_its_lines, sends_what_its_lines_alter,
    sends_when_committed,
};
pub use writer::{Written, write_session};
