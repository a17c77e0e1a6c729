//! Texts, changes and sessions as they are printed.

ghost use Rattle.std.specs.Prelude.{◌≡◌, ◌++◌, IfOk, OnOk, string_bytes};
ghost use Rattle.ep_print.specs.Reasons.{session_out};
ghost use Rattle.ep_print.specs.Texts.{written, escaped, text_out, quoted, change_out};

use ep_cs::Change;
use ep_csread::for_wire;
use ep_units::{NoMemory, Session, Units};
use std::alloc::Global;

const BACKSLASH: u16 = b'\\' as u16;

const LF: u16 = b'\n' as u16;

const TAB: u16 = b'\t' as u16;

const QUOTE: u16 = b'"' as u16;

const LETTER_N: u16 = b'n' as u16;

const LETTER_T: u16 = b't' as u16;

fn push_escaped(out: &mut Units, unit: u16) -> Result<(), NoMemory>
    ensures { OnOk result (out.new ≡ out.old ++ written unit) }
{
    match unit {
        BACKSLASH => out.push_all(&[BACKSLASH, BACKSLASH]),
        LF => out.push_all(&[BACKSLASH, LETTER_N]),
        TAB => out.push_all(&[BACKSLASH, LETTER_T]),
        QUOTE => out.push_all(&[BACKSLASH, QUOTE]),
        _ => out.push(unit),
    }
}

// The text with its backslashes, newlines, tabs and double quotes written as escapes.
fn escape(alloc: Global, text: &Units) -> Result<Units, NoMemory>
    ensures { IfOk result (λ t. t ≡ escaped text.now) }
{
    let mut out = Units::with_capacity(alloc, text.len())?;
    for unit in text.as_slice() {
        push_escaped(&mut out, *unit)?;
    }
    Ok(out)
}

pub(crate) fn print_text(alloc: Global, text: &Units) -> Result<String, NoMemory>
    ensures { IfOk result (λ s. string_bytes s ≡ text_out text.now) }
{
    escape(alloc, text)?.to_text_lossy(alloc)
}

/// A text in double quotes, on one line.
pub fn print_quoted(alloc: Global, text: &Units) -> Result<String, NoMemory>
    ensures { IfOk result (λ s. string_bytes s ≡ quoted text.now) }
{
    let text = print_text(alloc, text)?;
    Ok(format!(in alloc; "\"{text}\"")?)
}

pub(crate) fn print_change(alloc: Global, change: &Change) -> Result<String, NoMemory>
    ensures { IfOk result (λ s. string_bytes s ≡ change_out change.now) }
{
    let wire = for_wire(alloc, change)?;
    print_text(alloc, &wire.text)
}

pub(crate) fn print_session(alloc: Global, session: Session) -> Result<String, NoMemory>
    ensures { IfOk result (λ s. string_bytes s ≡ session_out session) }
{
    let epoch = session.epoch;
    let count = session.count;
    Ok(format!(in alloc; "{epoch}.{count}")?)
}
