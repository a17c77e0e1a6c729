//! The calls of a pad through a port, each with an answer of its own type.
//!
//! Each is one `ask` of the port, and hands on the answer in the reply. What a call is given by reference is copied
//! first; where memory is wanting for that, nothing was asked. It is not for what a call answers, which stands with the
//! pad.
#![tactic(auto)]

mod calls;
mod copying;

pub use calls::{
    accept, create, delete, fetch, history, leave, login, resume, set_public, set_text, status,
    text,
};
