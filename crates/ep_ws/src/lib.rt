//! A WebSocket as a link, with how long its peer is waited for, and what all connections may hold together. This is the
//! edge that is trusted.
//!
//! The crates above may rest on the link's clauses alone. It doesn't tell what it gives or takes, since no contract can
//! say that of a socket; it counts its faults, and fails only where it counted one. It is not for what a message means,
//! nor for the doors at which callers come.
#![tactic(auto)]

mod frames;
mod greeting;
mod head;
mod parting;
mod patience;
mod places;
mod stop;
mod talk;
mod vigil;
mod waiting;
mod watch;
mod ws_link;

pub use parting::part;
pub use patience::{MOST_TURNS, Patience, Since};
pub use places::{Bounds, Place, Places, Share};
pub use waiting::{Waiting, is_gone, would_block};
pub use watch::WakeEar;
pub use ws_link::WsLink;
