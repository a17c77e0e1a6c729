//! What holds of every schedule: whatever events follow one another, under any limits and for any pad's id.

ghost use Rattle.std.specs.Prelude.{List};
ghost use Rattle.ep_units.specs.Text.{Text};
ghost use Rattle.ep_outside.specs.declared.limits.Limits.{Limits};
ghost use Rattle.ep_schedule.specs.World.{Event, start, run};
ghost use Rattle.ep_schedule.specs.Kepts.{AreKept, AreSubmittedAlike, run_kept, nobodies};
ghost use Rattle.ep_schedule.specs.Headline.{
  Headline,
  Grows,
  after,
  AreRebased,
  IsCommittedOnce,
  NeverRefuses,
  ShowsHead,
  TakesAdmissible,
};
ghost use Rattle.ep_schedule.specs.Hearing.{AreDue};

/// The headline, whole: the parts that the other laws say one by one.
pub fn schedule()
    ensures { (limits : Limits) (id : Text) (events : List Event) → Headline (after limits id events) }
{}

/// A well-formed edit of a live writer that is the next to be taken is taken: it is committed as rebased, and answered so.
pub fn admissible_edits_are_taken()
    ensures { (limits : Limits) (id : Text) (events : List Event) → TakesAdmissible (after limits id events) }
{}

/// Each edit is committed once. No number is carried twice, and no two share a revision or a Nop. A number that was answered
/// as committed, or whose commit its client heard, is carried, and what carries it is in the records. Whatever a session's
/// edit made carries a number.
pub fn committed_once()
    ensures { (limits : Limits) (id : Text) (events : List Event) → IsCommittedOnce (after limits id events) }
{}

/// What was taken was brought through every later revision, and stands under the author of who made it. Where it had become
/// the identity it is a Nop; else it is a revision, with a newline's revision behind it just where its result lacks one.
pub fn rebased()
    ensures { (limits : Limits) (id : Text) (events : List Event) → AreRebased (after limits id events) }
{}

/// Whatever happens next, a crash too, nothing that was recorded is lost.
pub fn acknowledged_survives()
    ensures { (limits : Limits) (id : Text) (before next : List Event) → Grows (after limits id before) (run next (after limits id before)) }
{}

/// A client with nothing pending and nothing undelivered shows the head.
pub fn clean_clients_show_the_head()
    ensures { (limits : Limits) (id : Text) (events : List Event) → ShowsHead (after limits id events) }
{}

/// What a named client submitted is never refused as unread, read-only, without a base or not fitting.
pub fn never_refused()
    ensures { (limits : Limits) (id : Text) (events : List Event) → NeverRefuses (after limits id events) }
{}

/// What a connected client hears next is the next revision of its birth, whose change fits its document; or that its own
/// submission has become nothing; or the closing. So it is never out of order, not submitted or not fitting.
pub fn heard_in_order()
    ensures { (limits : Limits) (id : Text) (events : List Event) → AreDue (after limits id events) }
{}

/// A client that keeps only what its edits are now shows the view: the document of its revision, changed by what it
/// submitted and then by what it did not. It submits what the definition says.
pub fn kept_clients_agree()
    ensures shown { (limits : Limits) (id : Text) (events : List Event) → AreKept (after limits id events) (run_kept events (start limits id) nobodies) }
    ensures sent { (limits : Limits) (id : Text) (events : List Event) → AreSubmittedAlike (after limits id events) (run_kept events (start limits id) nobodies) }
{}
