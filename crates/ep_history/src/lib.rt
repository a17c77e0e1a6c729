//! A pad's history, its sessions and its machine; a client, and the client as it is kept: what every crate above means.
//!
//! The crates above may rest on the definitions in `specs/`, on the laws and on the plain types that the definitions and
//! the code share. There is no pad and no client in code here.
#![tactic(auto)]

mod fetch_laws;
mod laws;
mod machine_laws;
mod nop;
mod pad_bad;
mod record;
mod record_laws;
mod rev;
mod seat;
mod submission;

pub use fetch_laws::{
    fetches_follow_the_birth, fetches_tell_what_became_nothing, readings_stay_within,
};
pub use laws::{
    kept_client_equations, one_live_session_an_author, server_text_fits, taken_where_admissible,
};
pub use machine_laws::{
    admissible_edits_are_committed, records_tell_each_state, refusals_change_nothing,
};
pub use nop::Nop;
pub use pad_bad::PadBad;
pub use record::Record;
pub use record_laws::{calls_are_recorded, one_record_more, opened_first, records_keep_pads_sound};
pub use rev::Rev;
pub use seat::{Seat, Why};
pub use submission::Submission;
