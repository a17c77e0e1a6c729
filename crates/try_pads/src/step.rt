//! Texts that the server sets.

use ep_apply::Doc;
use ep_history::PadBad;
use ep_step::{Head, Step, next_step};
use ep_units::{NoMemory, Units};
use std::alloc::Global;
use std::test::Fail;

/// The step that sets a text in the place of one newline, where a document may have three units.
fn set(alloc: Global, text: &str) -> Result<Step, PadBad> {
    let newline = Doc::newline(alloc)?;
    let text = Units::from_str(alloc, text)?;
    let head = Head {
        rev: 0,
        doc: &newline,
        limit: 3,
    };
    head.set_text(alloc, &text)
}

/// The length of the document that a step's record makes of one newline.
fn units_again(alloc: Global, step: &Step) -> Result<Option<u32>, NoMemory> {
    let newline = Doc::newline(alloc)?;
    let change = step.edit.change.copy(alloc)?;
    let again = next_step(alloc, &newline, change, step.fixed())?;
    Ok(again.map(|again| again.doc().len()))
}

/// The time of a step's edit that nobody makes then.
fn time_of_nobody(alloc: Global, step: Step, time: u64) -> u64 {
    step.into_revs_of_nobody(alloc, time).edit.rev.time
}

#[test]
fn texts_are_set_and_read_back(rt: HostRuntime) -> Result<(), Fail> {
    let step = set(rt.alloc(), "ab")?;
    assert_eq!(rt; step.units(), 3);
    assert_eq!(rt; units_again(rt.alloc(), &step), Ok(Some(3)));
    assert_eq!(rt; time_of_nobody(rt.alloc(), step, 7), 7);
    Ok(())
}
