//! Why a script ends at a line.

ghost use Rattle.std.specs.Prelude.{◌≡◌, IfOk};
ghost use Rattle.std.specs.String.{string_bytes};
ghost use Rattle.ep_run.specs.Play.{error_line};

use std::alloc::{AllocError, Global};

/// Why a line is not played.
#[derive(Clone, Copy, Debug, PartialEq, Eq)]
pub enum Reason {
    /// It is not UTF-8.
    Utf8,
    /// It is no line of the grammar.
    Syntax,
    /// It is longer than a line may be, or ends behind the last byte of a script.
    Long,
    /// It names nobody of the kind that it needs.
    Unknown,
}

impl Reason {
    /// The line of output that says so of line k, which is counted from 1.
    pub fn error_line(self, alloc: Global, k: u64) -> Result<String, AllocError>
        ensures { IfOk result (λ s. string_bytes s ≡ error_line k self) }
    {
        match self {
            Reason::Utf8 => format!(in alloc; "error line {k} utf8\n"),
            Reason::Syntax => format!(in alloc; "error line {k} syntax\n"),
            Reason::Long => format!(in alloc; "error line {k} long\n"),
            Reason::Unknown => format!(in alloc; "error line {k} unknown\n"),
        }
    }
}
