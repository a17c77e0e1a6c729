//! The schedule theorem: a pad, its clients, whatever happens to them, and what holds of every schedule.
//!
//! `specs/World` says what each event does, `specs/Headline` what holds then, `specs/Kepts` what a client in code keeps, and
//! `specs/Hearing` what a client hears next. The crates above may rest on these and on the laws. There is no code here: a
//! world in code is tied to this one where it stands.
#![tactic(auto)]

mod laws;

pub use laws::{
    acknowledged_survives, admissible_edits_are_taken, clean_clients_show_the_head, committed_once,
    heard_in_order, kept_clients_agree, never_refused, rebased, schedule,
};
