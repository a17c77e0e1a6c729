//! Changeset text: changes and attributed texts are read from it, and printed.
//!
//! The crates above may rest on the definitions in `specs/`, on the laws in `laws` and `read_again`, and on
//! the exact clauses of the calls.
#![tactic(auto)]

mod attrs;
mod bad;
mod build;
mod checks;
mod fault;
mod laws;
mod output;
mod pairs;
mod parse;
mod printing;
mod read_again;
mod reader;
mod totals;
mod wire;
mod wires;
mod written;

pub use bad::ReadBad;
pub use laws::{one_change_is_spelled, read_where_spelled, syntax_ends_there};
pub use output::Spell;
pub use printing::{has_pairs, print, print_front};
pub use read_again::{attribs_are_read, printed_is_read, wire_is_read};
pub use reader::{read, read_attribs};
pub use wire::{Wire, for_wire, own_pool, print_attribs};
pub use wires::{Wires, for_wire_all};
