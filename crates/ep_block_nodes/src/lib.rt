//! What texts share: blocks, groups of blocks and pages of groups, as they are passed, spliced and piled up.
#![tactic(auto)]

mod ahead;
mod block;
mod form;
mod front;
mod groups;
mod node;
mod pile;
mod splice;
mod splicing;
mod stack;

pub use ahead::Ahead;
pub use block::{Block, MOST_UNITS};
pub use form::Form;
pub use front::Front;
pub use node::{Group, Node, Nodes, Page};
pub use pile::Pile;
pub use splice::Splice;
pub use splicing::spliced;
