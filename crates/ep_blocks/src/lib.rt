//! Text that shares its blocks: read, passed and written.
#![tactic(auto)]

mod body;
mod keeping;
mod passing;
mod reading;
mod writer;

pub use body::Body;
pub use ep_block_nodes::Splice;
pub use ep_block_parts::{Seen, Stretch};
pub use passing::Passing;
pub use reading::Reading;
pub use writer::Writer;
