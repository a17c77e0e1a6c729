//! The verdicts on a whole shelf, written.

ghost use Rattle.std.specs.Prelude.{◌≡◌, ◌≤◌, ◌⊎◌, ℕ, List, true, IfErr, IfOk, OnErr, OnOk};
ghost use Rattle.ep_outside.specs.Outside.{HasRisen, Takes, TakesPart};
ghost use Rattle.ep_outside.specs.Shelf.{Holds};
ghost use Rattle.ep_verdicts.specs.Lines.{lines_of};
ghost use Rattle.ep_verdicts.specs.Refusals.{IsCause, Leaves};
ghost use Rattle.ep_verdicts.specs.Written.{Writes};
ghost use Rattle.ep_verdicts.specs.declared.verdicts_bad.VerdictsBad.TheVariants as bad;

use crate::found::{Found, found_in};
use crate::line::print_verdict;
use crate::verdicts_bad::VerdictsBad;
use ep_outside::{Shelf, Sink};
use ep_verify::{Verdict, verify};
use std::alloc::Global;
use std::thread::Threads;

/// The lines of these verdicts are written, one by one.
fn write_lines<K: Sink, D>(
    alloc: Global,
    verdicts: &[Verdict],
    sink: &mut K,
) -> Result<(), VerdictsBad<D>>
    ensures whole { OnOk result (Takes (K.held sink.old) (K.held sink.new) (lines_of verdicts.now)) }
    ensures part { OnErr result (TakesPart (K.held sink.old) (K.held sink.new) (lines_of verdicts.now)) }
    ensures refused { IfErr result (IsCause (λ n. ⊥) (λ d. ⊥) (HasRisen (K.failures sink.old) (K.failures sink.new))) }
    ensures later { K.failures sink.old ≤ K.failures sink.new }
    ensures steady { K.is_steady sink.new ≡ K.is_steady sink.old }
{
    for verdict in verdicts {
        let line = print_verdict(alloc, verdict)?;
        sink.write(line.as_bytes())?;
    }
    Ok(())
}

/// The verdicts on the files of a shelf, a line each in the order of their names, are written into a sink. What they come
/// to is answered. Want of memory may come at any place.
pub fn verify_to<R: Threads, H: Shelf, K: Sink>(
    rt: &R,
    alloc: Global,
    shelf: &mut H,
    sink: &mut K,
    workers: u32,
) -> Result<Found, VerdictsBad<H::D>>
    requires { (1 ≤ workers) × (workers ≤ 64) }
    // What is written, which no number of workers changes.
    ensures writes { IfOk result (Writes (H.names shelf.old) (H.told shelf.old) (K.held sink.old) (K.held sink.new)) }
    ensures leaves { IfErr result (Leaves K.held (H.names shelf.old) (H.told shelf.old) sink.old sink.new) }

    // Each refusal has its cause.
    ensures refused { IfErr result (IsCause
        (λ n. (n ≡ H.failures shelf.new) × HasRisen (H.failures shelf.old) (H.failures shelf.new))
        (λ d. ((name : List ℕ) × Holds (H.told shelf.old name) (H.D.told d)) × (1 ≤ H.D.failures d))
        (HasRisen (K.failures sink.old) (K.failures sink.new))) }
    ensures shelf_sure { H.is_steady shelf.old ≡ true → IfErr result (λ e. (e ≡ bad.Sink) ⊎ (e ≡ bad.NoMemory)) }
    ensures sink_sure { K.is_steady sink.old ≡ true → IfErr result (λ e. e ≡ bad.Sink → ⊥) }

    // The shelf's names stay, so no file is made.
    ensures names { H.names shelf.new ≡ H.names shelf.old }
    ensures shelf_later { H.failures shelf.old ≤ H.failures shelf.new }
    ensures shelf_steady { H.is_steady shelf.new ≡ H.is_steady shelf.old }
    ensures sink_later { K.failures sink.old ≤ K.failures sink.new }
    ensures sink_steady { K.is_steady sink.new ≡ K.is_steady sink.old }
{
    let verdicts = verify(rt, alloc, shelf, workers)?;
    write_lines::<K, H::D>(alloc, &verdicts, sink)?;
    Ok(found_in(&verdicts))
}
