//! The directory of a pad server: groups, their pads, authors, sessions and read-only ids, over any keeper.
//!
//! Each call of `DirMachine` reads what it needs, plans its answer and its puts, and then makes the one
//! `put_all`, so that a refusal has changed nothing. The crates above may rest on each call being its
//! definition in `specs/` wherever the keeper tells its map, on the causes of its refusals, and on the laws
//! of its histories. It is not for what a pad itself decides: who may enter a pad that is there stands with
//! the pad.
#![tactic(auto)]

mod authors;
mod dir_machine;
mod dir_port;
mod entries;
mod grants;
mod group_pads;
mod groups;
mod laws;
mod read_only;
mod sessions;

pub use dir_machine::DirMachine;
pub use dir_port::DirPort;
pub use entries::{DirEntry, DirReply, GrantAsked, SessionAsked};
pub use ep_dir_records::{DirBad, Drawn, Listed, SessionInfo};
pub use laws::{is_call, kept_never, legal_follows, ours_stays};
