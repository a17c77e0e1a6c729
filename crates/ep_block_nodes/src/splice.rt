//! A splice: so many units at a place go, and a text comes for them.

ghost use Rattle.std.specs.Prelude.{◌≡◌, ◌≤◌, ◌-◌};

use ep_block_parts::Stretch;

/// So many units at a place go, and these come for them.
#[derive(Clone, Copy)]
pub struct Splice<'a> {
    pub at: u32,
    pub dropped: u32,
    pub new: Stretch<'a>,
}

impl<'a> Splice<'a> {
    /// The same of what stands behind so many units.
    pub(crate) fn behind(self, before: u32) -> Splice<'a>
        requires { before ≤ self.at }
        ensures at { result.at ≡ self.entry.at - before }
        ensures dropped { result.dropped ≡ self.entry.dropped }
        ensures new { result.new ≡ self.entry.new }
    {
        Splice {
            at: self.at - before,
            dropped: self.dropped,
            new: self.new,
        }
    }
}
