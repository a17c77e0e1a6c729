//! The fields of a record, each as bytes: numbers, sessions, texts, changes with their pairs, and documents as frames.
//!
//! The crates above may rest on a field's bytes being those of `specs/Bytes`, and on each being read from the front of
//! its bytes as it was. Reading is loose: other bytes may be read as a field too, and whoever is to know writes it again
//! and compares. After an error of writing nothing is known of the vector's end.
#![tactic(auto)]

mod fault;
mod laws;
mod reading;
mod writing;

pub use fault::Fault;
pub use laws::fields_are_read_again;
pub use reading::{change_of, flag_of, frame_of, number_of, session_of, text_of};
pub use writing::{MOST_FRAME, put_change, put_flag, put_frame, put_number, put_session, put_text};
