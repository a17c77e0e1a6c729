//! Lines of verdicts.

ghost use Rattle.std.specs.Prelude.{◌≡◌, IfOk, string_bytes};
ghost use Rattle.ep_verdicts.specs.Lines.{verdict_line, what_out};

use ep_print::print_quoted;
use ep_units::{NoMemory, Units};
use ep_verify::{Verdict, What};
use std::alloc::Global;

/// What a file is, in words.
pub fn print_what(alloc: Global, what: What) -> Result<String, NoMemory>
    ensures { IfOk result (λ s. string_bytes s ≡ what_out what) }
{
    match what {
        What::Whole { head, units } => Ok(format!(in alloc; "whole head {head} units {units}")?),
        What::Absent => Ok(format!(in alloc; "absent")?),
        What::Foreign => Ok(format!(in alloc; "foreign")?),
        What::BadRecord(index) => Ok(format!(in alloc; "record {index}")?),
        What::Behind(count) => Ok(format!(in alloc; "behind {count}")?),
    }
}

/// The line of a verdict.
pub(crate) fn print_verdict(alloc: Global, verdict: &Verdict) -> Result<String, NoMemory>
    ensures { IfOk result (λ s. string_bytes s ≡ verdict_line verdict.now) }
{
    let name = Units::from_slice(alloc, verdict.name.as_slice())?;
    let name = print_quoted(alloc, &name)?;
    let what = print_what(alloc, verdict.what)?;
    Ok(format!(in alloc; "{name} {what}\n")?)
}
