//! Scripts over a source in memory that gives them piece by piece.

use ep_outside::{Device, Got, Source};
use ep_script::{MOST_LINE, Script, ScriptBad, ScriptLine};
use std::alloc::{AllocError, Global};

/// A text that gives at most so many bytes a read, and then ends or fails.
#[derive(Drop)]
struct Pieces<'a> {
    left: &'a [u8],
    most: usize,
    is_broken: bool,
    faults: u64,
}

impl<'a> Device for Pieces<'a> {
    ghost use Rattle.std.specs.Prelude.{false};
    ghost use Rattle.std.proofs.Common.{true≢false, sym};

    ghost failures = { λ p. p.faults };

    ghost is_steady = { λ _. false };

    ghost never_fails = { λ _ steady. absurd (true≢false (sym steady)) };

    fn faults(&self) -> u64 {
        self.faults
    }
}

impl<'a> Source for Pieces<'a> {
    ghost use Rattle.std.specs.Prelude.{Some};

    ghost left = { λ p. Some p.left.now };

    fn read(&mut self, room: &mut [u8]) -> Got {
        let n = self.left.len().min(room.len()).min(self.most.max(1));
        if n == 0 {
            if self.is_broken {
                self.faults = self.faults.saturating_add(1);
                return Got::Failed;
            }
            return Got::End;
        }
        room[..n].copy_from_slice(&self.left[..n]);
        self.left = &self.left[n..];
        Got::Bytes(n)
    }
}

/// Puts the next line with a bar behind it, or a word for how the text ends; and says whether it went on.
fn put_next(
    script: &mut Script,
    source: &mut Pieces,
    seen: &mut Vec<u8>,
) -> Result<bool, AllocError> {
    match script.next_line(source) {
        Ok(Some(ScriptLine::Text(line))) => {
            seen.extend_from_slice(&line)?;
            seen.extend_from_slice(b"|")?;
            Ok(true)
        }
        Ok(Some(ScriptLine::Long)) => put_end(seen, b"long"),
        Ok(None) => put_end(seen, b"over"),
        Err(ScriptBad::Fault) => put_end(seen, b"fault"),
        Err(ScriptBad::NoMemory) => Err(AllocError),
    }
}

fn put_end(seen: &mut Vec<u8>, word: &[u8]) -> Result<bool, AllocError> {
    seen.extend_from_slice(word)?;
    Ok(false)
}

/// The lines of a text, each with a bar behind it, and a word for how it ends.
fn lines(alloc: Global, source: &mut Pieces) -> Result<Vec<u8>, AllocError> {
    let mut script = Script::new(alloc);
    let mut seen = Vec::new(alloc);
    for _ in 0..9 {
        if !put_next(&mut script, source, &mut seen)? {
            break;
        }
    }
    Ok(seen)
}

/// Whether the lines of a text are these, which gives so many bytes a read, and is broken at its end or not.
fn gives(
    alloc: Global,
    left: &[u8],
    most: usize,
    is_broken: bool,
    seen: &[u8],
) -> Result<bool, AllocError> {
    let mut source = Pieces {
        left,
        most,
        is_broken,
        faults: 0,
    };
    Ok(lines(alloc, &mut source)?.as_slice() == seen)
}

#[test]
fn cut_off(rt: HostRuntime) {
    for most in [1, 3, 4096] {
        for (left, is_broken, seen) in [
            (b"".as_slice(), false, b"over".as_slice()),
            (b"a\r\r\n\r\nb\r", false, b"a\r||b\r|over"),
            (b"a\n\nb\n", false, b"a||b|over"),
            (b"a\nb", true, b"a|fault"),
        ] {
            let given = gives(rt.alloc(), left, most, is_broken, seen);
            assert_eq!(rt; given, Ok(true), "at {left:?} by {most}");
        }
    }
}

/// Whether the lines of so many bytes with no line feed end so.
fn end(alloc: Global, bytes: usize, seen: &[u8]) -> Result<bool, AllocError> {
    let text = vec![in alloc; b'#'; bytes]?;
    let mut source = Pieces {
        left: &text,
        most: 4096,
        is_broken: false,
        faults: 0,
    };
    Ok(lines(alloc, &mut source)?.ends_with(seen))
}

#[test]
fn long_lines(rt: HostRuntime) {
    for (bytes, seen) in [
        (MOST_LINE, b"|over".as_slice()),
        (MOST_LINE + 1, b"long".as_slice()),
    ] {
        assert_eq!(rt; end(rt.alloc(), bytes, seen), Ok(true), "at {bytes}");
    }
}
