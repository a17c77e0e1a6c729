//! The line that each end of a writer has.

ghost use Rattle.std.specs.Prelude.{◌≡◌, codes, IfOk, string_bytes};
ghost use Rattle.ep_written.specs.Written.{error_line, line_of, refused_line, rev_line, wrote_of, word_of};

use crate::wrote::Wrote;
use ep_peer::{PeerBad, Reason, Written};
use ep_print::print_quoted;
use ep_units::NoMemory;
use std::alloc::{AllocError, Global};

// The word of why a line isn't written.
fn word(reason: Reason) -> &'static str
    ensures { result.now ≡ word_of reason }
{
    match reason {
        Reason::Utf8 => "utf8",
        Reason::Syntax => "syntax",
        Reason::Long => "long",
        Reason::Place | Reason::CutsPair(_) => "place",
    }
}

fn error_line(alloc: Global, line: u64, reason: Reason) -> Result<String, AllocError>
    ensures { IfOk result (λ s. string_bytes s ≡ error_line line reason) }
{
    let word = word(reason);
    format!(in alloc; "error line {line} {word}\n")
}

fn refused_line(alloc: Global, why: &str) -> Result<String, AllocError>
    ensures { IfOk result (λ s. string_bytes s ≡ refused_line why.now) }
{
    format!(in alloc; "refused {why}\n")
}

fn rev_line(alloc: Global, written: &Written) -> Result<String, NoMemory>
    ensures { IfOk result (λ s. string_bytes s ≡ rev_line written.now) }
{
    let rev = written.rev;
    let text = print_quoted(alloc, &written.text)?;
    Ok(format!(in alloc; "rev {rev} {text}\n")?)
}

/// The line that is written of how a writer ended.
pub fn line(alloc: Global, ended: &Result<Written, PeerBad>) -> Result<String, NoMemory>
    ensures { IfOk result (λ s. string_bytes s ≡ line_of ended.now) }
{
    match ended {
        Ok(written) => rev_line(alloc, written),
        Err(PeerBad::Script(line, reason)) => Ok(error_line(alloc, *line, *reason)?),
        Err(PeerBad::Refused(text)) => Ok(refused_line(alloc, text.as_str())?),
        Err(PeerBad::Wire(_)) | Err(PeerBad::Heard(_)) | Err(PeerBad::Turn) => {
            Ok(refused_line(alloc, "message")?)
        }
        Err(_) => Ok(String::new(alloc)),
    }
}

/// How writing ended, where what is due could be written.
pub fn wrote(ended: &Result<Written, PeerBad>) -> Wrote
    ensures { result ≡ wrote_of ended.now }
{
    match ended {
        Ok(_) => Wrote::All,
        Err(PeerBad::Script(_, _)) => Wrote::BadLine,
        Err(PeerBad::SourceFault(_)) => Wrote::SourceFault,
        Err(PeerBad::LinkFault(_)) => Wrote::LinkFault,
        Err(PeerBad::LinkClosed) => Wrote::LinkClosed,
        Err(PeerBad::Refused(_))
        | Err(PeerBad::Wire(_))
        | Err(PeerBad::Heard(_))
        | Err(PeerBad::Turn) => Wrote::Refused,
        Err(PeerBad::NoMemory) => Wrote::NoMemory,
    }
}
