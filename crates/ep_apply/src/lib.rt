//! Documents, and changes that are made to them.
#![tactic(auto)]

mod applying;
mod doc;
mod fitting;
mod laws;
mod moving;
mod splice;

pub use applying::apply;
pub use doc::Doc;
pub use ep_blocks::{Passing, Reading, Seen, Stretch};
pub use fitting::fits;
pub use laws::{documents_stay, inserted_again};
