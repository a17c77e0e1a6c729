//! A machine whose calls are entries with replies, so that its history is a list of them.

/// A machine whose calls are entries with replies.
pub trait Machine {
    ghost use Rattle.std.specs.Prelude.{List, [], ◌∷◌, ◌++◌};

    type Entry: Drop;

    type Reply: Drop;

    /// The entry may be called, whatever the machine has done before.
    ghost allows: { Self.Entry → Type 0 };

    /// Of a machine as it began and as it is now: it has done just these calls in between.
    ghost stands: { Self → Self → List (Self.Entry × Self.Reply) → Type 0 };

    /// Each reply is the one that the calls before it ask for, of a machine that began so.
    ghost legal: { Self → List (Self.Entry × Self.Reply) → Type 0 };

    fn call(&mut self, entry: Self::Entry) -> Self::Reply
        requires { allows entry }
        ensures { (first : Self) (h : List (Self.Entry × Self.Reply)) → stands first self.old h → stands first self.new (h ++ (entry, result) ∷ []) };

    ghost stands_legal: { (first m : Self) (h : List (Self.Entry × Self.Reply)) → stands first m h → legal first h };
}
