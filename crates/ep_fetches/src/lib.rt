//! What one session of a pad is told, over a whole history: it is of one birth, and nothing of it is left out.
//!
//! `specs/Told` says what each answer to a session is of a birth. The crates above may rest on that and on the laws.
//! There is no code here: what ties a pad in code to a history is `ep_pad`.
#![tactic(auto)]

mod laws;

pub use laws::{documents_follow, none_left_out, one_birth_a_session};
