//! What goes up and down a connection.

use ep_cs::Change;
use ep_csread::ReadBad;
use ep_event::Ended;
use ep_history::Rev;

/// An edit on its way to the server; of a guest maybe a text that spells no change, and why.
#[derive(Drop)]
pub struct Sent {
    pub base: u64,
    pub change: Result<Change, ReadBad>,
}

/// What goes down to a client.
#[derive(Drop)]
pub enum Down {
    Revision(Rev),
    /// Its submission has become nothing; the last revision that was sent.
    Spent(u64),
    /// Nothing comes behind it.
    Closing(Ended),
}
