//! Lines of output, one for each kind of what is shown.

ghost use Rattle.std.specs.Prelude.{◌≡◌, IfOk, string_bytes, None, Some};
ghost use Rattle.ep_print.specs.Printed.{printed};
ghost use Rattle.ep_event.specs.declared.shown.Shown.TheVariants as shown;

use crate::marks::{Marks, print_marks};
use crate::reasons::print_reason;
use crate::texts::{print_change, print_session, print_text};
use crate::words::{ended_word, state_word, verb_word};
use ep_apply::Doc;
use ep_cs::Change;
use ep_event::{Ended, Reason, Shown, State, Verb};
use ep_units::{NoMemory, Session, Units};
use std::alloc::Global;

fn created(alloc: Global, change: &Change) -> Result<String, NoMemory>
    ensures { IfOk result (λ s. string_bytes s ≡ printed (shown.Created change.now)) }
{
    let change = print_change(alloc, change)?;
    Ok(format!(in alloc; "create rev 0 {change}\n")?)
}

fn set(alloc: Global, rev: u64, fixed: bool, change: &Change) -> Result<String, NoMemory>
    ensures { IfOk result (λ s. string_bytes s ≡ printed (shown.Set rev fixed change.now)) }
{
    let change = print_change(alloc, change)?;
    if fixed {
        return Ok(format!(in alloc; "set rev {rev} fixed {change}\n")?);
    }
    Ok(format!(in alloc; "set rev {rev} {change}\n")?)
}

fn entered(
    alloc: Global,
    verb: Verb,
    name: &Units,
    session: Session,
    rev: u64,
) -> Result<String, NoMemory>
    ensures { IfOk result (λ s. string_bytes s ≡ printed (shown.Entered verb name.now session rev)) }
{
    let verb = verb_word(verb);
    let name = name.to_text_lossy(alloc)?;
    let session = print_session(alloc, session)?;
    Ok(format!(in alloc; "{verb} {name} {session} rev {rev}\n")?)
}

fn done(alloc: Global, verb: Verb, name: &Option<Units>) -> Result<String, NoMemory>
    ensures { IfOk result (λ s. string_bytes s ≡ printed (shown.Done verb name.now)) }
{
    let verb = verb_word(verb);
    match name {
        Some(name) => {
            let name = name.to_text_lossy(alloc)?;
            Ok(format!(in alloc; "{verb} {name} ok\n")?)
        }
        None => Ok(format!(in alloc; "{verb} ok\n")?),
    }
}

fn nothing(alloc: Global, verb: Verb, name: &Units) -> Result<String, NoMemory>
    ensures { IfOk result (λ s. string_bytes s ≡ printed (shown.Nothing verb name.now)) }
{
    let verb = verb_word(verb);
    let name = name.to_text_lossy(alloc)?;
    Ok(format!(in alloc; "{verb} {name} none\n")?)
}

fn refused(alloc: Global, verb: Verb, name: &Option<Units>, why: Reason) -> Result<String, NoMemory>
    ensures { IfOk result (λ s. string_bytes s ≡ printed (shown.Refused verb name.now why)) }
{
    let verb = verb_word(verb);
    let why = print_reason(alloc, why)?;
    match name {
        Some(name) => {
            let name = name.to_text_lossy(alloc)?;
            Ok(format!(in alloc; "{verb} {name} refused {why}\n")?)
        }
        None => Ok(format!(in alloc; "{verb} refused {why}\n")?),
    }
}

fn attr(alloc: Global, number: u64) -> Result<String, NoMemory>
    ensures { IfOk result (λ s. string_bytes s ≡ printed (shown.Attr number)) }
{
    Ok(format!(in alloc; "attr {number}\n")?)
}

fn remade(alloc: Global, verb: Verb, name: &Units, change: &Change) -> Result<String, NoMemory>
    ensures { IfOk result (λ s. string_bytes s ≡ printed (shown.Remade verb name.now change.now)) }
{
    let verb = verb_word(verb);
    let name = name.to_text_lossy(alloc)?;
    let change = print_change(alloc, change)?;
    Ok(format!(in alloc; "{verb} {name} {change}\n")?)
}

fn submitted(alloc: Global, name: &Units, base: u64, change: &Change) -> Result<String, NoMemory>
    ensures { IfOk result (λ s. string_bytes s ≡ printed (shown.Submitted name.now base change.now)) }
{
    let name = name.to_text_lossy(alloc)?;
    let change = print_change(alloc, change)?;
    Ok(format!(in alloc; "submit {name} base {base} {change}\n")?)
}

fn taken(
    alloc: Global,
    verb: Verb,
    name: &Units,
    rev: u64,
    fixed: bool,
    change: &Change,
) -> Result<String, NoMemory>
    ensures { IfOk result (λ s. string_bytes s ≡ printed (shown.Taken verb name.now rev fixed change.now)) }
{
    let verb = verb_word(verb);
    let name = name.to_text_lossy(alloc)?;
    let change = print_change(alloc, change)?;
    if fixed {
        return Ok(format!(in alloc; "{verb} {name} rev {rev} fixed {change}\n")?);
    }
    Ok(format!(in alloc; "{verb} {name} rev {rev} {change}\n")?)
}

fn noted(alloc: Global, verb: Verb, name: &Units, rev: u64) -> Result<String, NoMemory>
    ensures { IfOk result (λ s. string_bytes s ≡ printed (shown.Noted verb name.now rev)) }
{
    let verb = verb_word(verb);
    let name = name.to_text_lossy(alloc)?;
    Ok(format!(in alloc; "{verb} {name} nop {rev}\n")?)
}

fn pushed(alloc: Global, name: &Units, rev: u64) -> Result<String, NoMemory>
    ensures { IfOk result (λ s. string_bytes s ≡ printed (shown.Pushed name.now rev)) }
{
    let name = name.to_text_lossy(alloc)?;
    Ok(format!(in alloc; "push {name} {rev}\n")?)
}

fn committed(alloc: Global, name: &Units, rev: u64) -> Result<String, NoMemory>
    ensures { IfOk result (λ s. string_bytes s ≡ printed (shown.Committed name.now rev)) }
{
    let name = name.to_text_lossy(alloc)?;
    Ok(format!(in alloc; "hear {name} commit {rev}\n")?)
}

fn heard(alloc: Global, name: &Units, rev: u64) -> Result<String, NoMemory>
    ensures { IfOk result (λ s. string_bytes s ≡ printed (shown.Heard name.now rev)) }
{
    let name = name.to_text_lossy(alloc)?;
    Ok(format!(in alloc; "hear {name} new {rev}\n")?)
}

fn closed(alloc: Global, verb: Verb, name: &Units, word: Ended) -> Result<String, NoMemory>
    ensures { IfOk result (λ s. string_bytes s ≡ printed (shown.Closed verb name.now word)) }
{
    let verb = verb_word(verb);
    let name = name.to_text_lossy(alloc)?;
    let word = ended_word(word);
    Ok(format!(in alloc; "{verb} {name} closed {word}\n")?)
}

fn resumed(alloc: Global, name: &Units, session: Session, head: u64) -> Result<String, NoMemory>
    ensures { IfOk result (λ s. string_bytes s ≡ printed (shown.Resumed name.now session head)) }
{
    let name = name.to_text_lossy(alloc)?;
    let session = print_session(alloc, session)?;
    Ok(format!(in alloc; "resume {name} {session} head {head}\n")?)
}

fn crashed(alloc: Global, epoch: u64, head: Option<u64>) -> Result<String, NoMemory>
    ensures { IfOk result (λ s. string_bytes s ≡ printed (shown.Crashed epoch head)) }
{
    match head {
        Some(head) => Ok(format!(in alloc; "crash epoch {epoch} head {head}\n")?),
        None => Ok(format!(in alloc; "crash epoch {epoch} absent\n")?),
    }
}

fn view(alloc: Global, name: &Units, rev: u64, state: State, doc: &Doc) -> Result<String, NoMemory>
    ensures { IfOk result (λ s. string_bytes s ≡ printed (shown.View name.now rev state doc.now)) }
{
    let name = name.to_text_lossy(alloc)?;
    let state = state_word(state);
    let text = print_text(alloc, &doc.text(alloc)?)?;
    Ok(format!(in alloc; "show {name} rev {rev} {state} \"{text}\"\n")?)
}

fn head(alloc: Global, rev: u64, doc: &Doc) -> Result<String, NoMemory>
    ensures { IfOk result (λ s. string_bytes s ≡ printed (shown.Head rev doc.now)) }
{
    let text = print_text(alloc, &doc.text(alloc)?)?;
    Ok(format!(in alloc; "head {rev} \"{text}\"\n")?)
}

fn revision(alloc: Global, rev: u64, doc: &Doc) -> Result<String, NoMemory>
    ensures { IfOk result (λ s. string_bytes s ≡ printed (shown.Text rev doc.now)) }
{
    let text = print_text(alloc, &doc.text(alloc)?)?;
    Ok(format!(in alloc; "text {rev} \"{text}\"\n")?)
}

fn gone(alloc: Global, verb: Verb) -> Result<String, NoMemory>
    ensures { IfOk result (λ s. string_bytes s ≡ printed (shown.Gone verb)) }
{
    let verb = verb_word(verb);
    Ok(format!(in alloc; "{verb} gone\n")?)
}

fn text_gone(alloc: Global, rev: u64) -> Result<String, NoMemory>
    ensures { IfOk result (λ s. string_bytes s ≡ printed (shown.TextGone rev)) }
{
    Ok(format!(in alloc; "text {rev} gone\n")?)
}

fn no_rev(alloc: Global, rev: u64, head: u64) -> Result<String, NoMemory>
    ensures { IfOk result (λ s. string_bytes s ≡ printed (shown.NoRev rev head)) }
{
    Ok(format!(in alloc; "text {rev} norev {head}\n")?)
}

fn head_marks(alloc: Global, rev: u64, doc: &Doc) -> Result<String, NoMemory>
    ensures { IfOk result (λ s. string_bytes s ≡ printed (shown.HeadMarks rev doc.now)) }
{
    let Marks { attribs, pool } = print_marks(alloc, doc)?;
    Ok(format!(in alloc; "marks {rev} {attribs} {pool}\n")?)
}

fn view_marks(alloc: Global, name: &Units, doc: &Doc) -> Result<String, NoMemory>
    ensures { IfOk result (λ s. string_bytes s ≡ printed (shown.ViewMarks name.now doc.now)) }
{
    let name = name.to_text_lossy(alloc)?;
    let Marks { attribs, pool } = print_marks(alloc, doc)?;
    Ok(format!(in alloc; "marks {name} {attribs} {pool}\n")?)
}

/// The line that says what is shown.
pub fn print_shown(alloc: Global, shown: &Shown) -> Result<String, NoMemory>
    ensures { IfOk result (λ s. string_bytes s ≡ printed shown.now) }
{
    match shown {
        Shown::Created { change } => created(alloc, change),
        Shown::Set { rev, fixed, change } => set(alloc, *rev, *fixed, change),
        Shown::Entered {
            verb,
            name,
            session,
            rev,
        } => entered(alloc, *verb, name, *session, *rev),
        Shown::Done { verb, name } => done(alloc, *verb, name),
        Shown::Nothing { verb, name } => nothing(alloc, *verb, name),
        Shown::Refused { verb, name, why } => refused(alloc, *verb, name, *why),
        Shown::Attr { number } => attr(alloc, *number),
        Shown::Remade { verb, name, change } => remade(alloc, *verb, name, change),
        Shown::Submitted { name, base, change } => submitted(alloc, name, *base, change),
        Shown::Taken {
            verb,
            name,
            rev,
            fixed,
            change,
        } => taken(alloc, *verb, name, *rev, *fixed, change),
        Shown::Noted { verb, name, rev } => noted(alloc, *verb, name, *rev),
        Shown::Pushed { name, rev } => pushed(alloc, name, *rev),
        Shown::Committed { name, rev } => committed(alloc, name, *rev),
        Shown::Heard { name, rev } => heard(alloc, name, *rev),
        Shown::Closed { verb, name, word } => closed(alloc, *verb, name, *word),
        Shown::Resumed {
            name,
            session,
            head,
        } => resumed(alloc, name, *session, *head),
        Shown::Crashed { epoch, head } => crashed(alloc, *epoch, *head),
        Shown::View {
            name,
            rev,
            state,
            doc,
        } => view(alloc, name, *rev, *state, doc),
        Shown::Head { rev, doc } => head(alloc, *rev, doc),
        Shown::Text { rev, doc } => revision(alloc, *rev, doc),
        Shown::Gone { verb } => gone(alloc, *verb),
        Shown::TextGone { rev } => text_gone(alloc, *rev),
        Shown::NoRev { rev, head } => no_rev(alloc, *rev, *head),
        Shown::HeadMarks { rev, doc } => head_marks(alloc, *rev, doc),
        Shown::ViewMarks { name, doc } => view_marks(alloc, name, doc),
    }
}
