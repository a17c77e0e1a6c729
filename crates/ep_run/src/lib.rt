//! All that the program does, over any devices.
//!
//! One function reads the words and does what they ask for. It is not for real devices, which the program makes, nor for
//! what is done for a caller of the server, which its host says.
#![tactic(auto)]

mod judge;
mod laws;
mod making;
mod reason;
mod say;
mod script;
mod serving;
mod stage;
mod status;
mod top;
mod writing;

pub use judge::verify_to;
pub use laws::one_transcript;
pub use making::make_to;
pub use script::{Played, play};
pub use serving::serve_callers;
pub use status::Status;
pub use top::run;
pub use writing::write_pad;
