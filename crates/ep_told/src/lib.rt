//! What one session sends, beside the history of its pad: the revisions of one birth, one after the other.
//!
//! `ep_session` says what a session sends by the calls of its own pass, and `ep_fetches` what the calls of a session tell
//! of a pad's history. Here is the law that joins them. There is no code here.
#![tactic(auto)]

mod law;

pub use law::sends_its_pads_history;
