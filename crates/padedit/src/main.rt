//! `padedit`, an editor of one pad for whoever shows its text: JSON Lines in, JSON Lines out, one reply to each request. It
//! opens no socket. Who runs it gives it each message that came, and sends what it says.
#![tactic(auto)]

mod answer;
mod asked;
mod kept;
mod members;
mod refusal;
mod reply;
mod words;

use crate::answer::answer;
use ep_edge::StdSource;
use ep_editor::Editor;
use ep_lines::{Line, Lines, LinesBad};
use ep_outside::Source;
use std::alloc::AllocError;
use std::io;
use std::process::ExitCode;

/// The most bytes of a line. A longer one is passed over, and answered as one that is no JSON.
const MOST_LINE: usize = 67_108_864;

/// Why the program ends before its input does.
enum Stop {
    /// Its input can't be read on.
    Input,
    /// What it writes isn't taken.
    Output,
    NoMemory,
}

impl From<LinesBad> for Stop {
    fn from(bad: LinesBad) -> Stop {
        match bad {
            LinesBad::Fault | LinesBad::Endless => Stop::Input,
            LinesBad::NoMemory => Stop::NoMemory,
        }
    }
}

impl From<io::Error> for Stop {
    fn from(_error: io::Error) -> Stop {
        Stop::Output
    }
}

impl From<AllocError> for Stop {
    fn from(_error: AllocError) -> Stop {
        Stop::NoMemory
    }
}

/// An editor, and the lines that it is asked for.
struct Asking {
    editor: Editor,
    lines: Lines,
}

impl Drop for Asking {
    fn drop(self) {
        let Asking {
            editor: _,
            lines: _,
        } = self;
    }
}

/// Answers a line. An empty one is passed over.
fn answer_line<R: Print + AllocGlobal>(
    rt: &R,
    editor: &mut Editor,
    line: &Line,
) -> Result<(), Stop> {
    if matches!(line, Line::Text(bytes) if bytes.is_empty()) {
        return Ok(());
    }
    let reply = answer(rt.alloc(), editor, line)?;
    println!(rt; "{reply}")?;
    Ok(())
}

impl Asking {
    /// Answers the next line, if there is one.
    fn answer_next<R: Print + AllocGlobal, S: Source>(
        &mut self,
        rt: &R,
        source: &mut S,
    ) -> Result<bool, Stop> {
        match self.lines.next_line(source)? {
            Some(line) => answer_line(rt, &mut self.editor, &line).map(|()| true),
            None => Ok(false),
        }
    }

    /// Answers all lines.
    fn answer_all<R: Print + AllocGlobal, S: Source>(
        &mut self,
        rt: &R,
        source: &mut S,
    ) -> Result<(), Stop> {
        for _ in 0..u64::MAX {
            if !self.answer_next(rt, source)? {
                return Ok(());
            }
        }
        Ok(())
    }
}

fn main(rt: HostRuntime) -> ExitCode {
    let mut source = StdSource::new(rt.reader());
    let mut asking = Asking {
        editor: Editor::new(),
        lines: Lines::new(rt.alloc(), MOST_LINE),
    };
    let told = match asking.answer_all(&rt, &mut source) {
        Ok(()) => return ExitCode::SUCCESS,
        Err(Stop::Input) => eprintln!(rt; "padedit: the input can't be read"),
        Err(Stop::Output) => eprintln!(rt; "padedit: the output isn't taken"),
        Err(Stop::NoMemory) => eprintln!(rt; "padedit: out of memory"),
    };
    let _told = told;
    ExitCode::FAILURE
}
