//! A birth's whole history.

use ep_history::Rev;

/// The revisions of a birth, the first of them its creation's, and whether anybody may enter a group's pad.
pub struct History {
    pub revs: Vec<Rev>,
    pub public: bool,
}

impl Drop for History {
    fn drop(self) {
        let History { revs: _, public: _ } = self;
    }
}
