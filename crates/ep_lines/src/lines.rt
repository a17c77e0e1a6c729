//! The lines of a source, one after another.

ghost use Rattle.std.specs.Prelude.{◌≡◌, ◌≤◌, ◌<◌, ◌+◌, ◌++◌, ◌==◌, ◌⊎◌, ◌∷◌, [], List, ℕ, true, false, nat_lt, length, position, take, drop, None, IfOk, IsErrOf, OnOk};
ghost use Rattle.ep_outside.specs.Outside.{Gives, HasCause, IsAtEnd};
ghost use Rattle.ep_lines.specs.Reading.{IsNext, MayFollow};
ghost use Rattle.ep_lines.specs.Rows.{Row, rows_of};

use ep_outside::{Got, Source};
use std::alloc::{AllocError, Global};
use std::marker::Model;
use std::mem::replace;
use thiserror::Error;

/// What was read of a source and given in no line yet. No more is held than a line needs, and what came with that.
#[derive(Drop)]
pub struct Lines {
    alloc: Global,
    held: Vec<u8>,
    is_over: bool,
    most: usize,
}

impl Model for Lines {
    ghost use Rattle.ep_lines.specs.Reading.{Unread};

    ghost Value = { Unread };

    ghost view = { λ s. record { held = s.held.items; is_over = s.is_over; most = s.most } };
}

/// A line of a source.
#[derive(Drop)]
pub enum Line {
    /// Its bytes, without the LF.
    Text(Vec<u8>),
    /// It has more bytes than are given. It is passed over.
    Long,
}

/// Why a source was not read on.
#[derive(Clone, Copy, Debug, Error, PartialEq, Eq)]
pub enum LinesBad {
    #[error("the source failed")]
    Fault,
    #[error("out of memory")]
    NoMemory,
    /// A line came in more than 2^64 - 2 pieces.
    #[error("a line has no end")]
    Endless,
}

impl From<AllocError> for LinesBad {
    ghost use Rattle.std.specs.Prelude.{◌≡◌};
    ghost use Rattle.ep_lines.specs.declared.lines.LinesBad.TheVariants.{NoMemory};

    ghost from_gives = { λ _ e. e ≡ NoMemory };

    fn from(_error: AllocError) -> LinesBad {
        LinesBad::NoMemory
    }
}

fn line_end(bytes: &[u8]) -> Option<usize>
    ensures { result ≡ position (λ b. b == 10) bytes.now }
{
    bytes.iter().position(|b| *b == b'\n')
}

impl Lines {
    /// A source of which nothing is read. Of a line it gives so many bytes at most, its LF not counted.
    pub fn new(alloc: Global, most: usize) -> Lines
        ensures { result ≡ record { held = []; is_over = false; most = most } }
    {
        Lines {
            alloc,
            held: Vec::new(alloc),
            is_over: false,
            most,
        }
    }

    /// The next line, if there is one. It takes what is there, and waits for no more than the line's LF.
    pub fn next_line<S: Source>(&mut self, source: &mut S) -> Result<Option<Line>, LinesBad>
        ensures next { (piece : List ℕ) × Gives (S.left source.old) (S.left source.new) piece
            × ((more : List ℕ) → MayFollow self.new (S.left source.new) more
            → MayFollow self.old (S.left source.old) (piece ++ more) × IsNext self.old piece self.new more result) }
        ensures over { (self.old.is_over ≡ true → IsAtEnd (S.left source.old)) → self.new.is_over ≡ true → IsAtEnd (S.left source.new) }
        ensures most { self.new.most ≡ self.old.most }
        ensures cause { HasCause (S.failures source.old) (S.failures source.new) (S.is_steady source.old) (S.is_steady source.new) (IsErrOf result LinesBad.Fault) }
    {
        match self.find(source)? {
            Some(at) => {
                if at > self.most {
                    self.cut(at)?;
                    return Ok(Some(Line::Long));
                }
                Ok(Some(Line::Text(self.cut(at)?)))
            }
            None => {
                if self.held.is_empty() {
                    return Ok(None);
                }
                if self.held.len() > self.most {
                    self.pass_over(source)?;
                    return Ok(Some(Line::Long));
                }
                Ok(Some(Line::Text(self.rest())))
            }
        }
    }

    /// Reads on until what is held tells where its first line ends, or that the line is too long, or the last.
    fn find<S: Source>(&mut self, source: &mut S) -> Result<Option<usize>, LinesBad>
        ensures reads { (piece : List ℕ) × Gives (S.left source.old) (S.left source.new) piece × OnOk result (self.new.held ≡ self.old.held ++ piece)
            × (self.old.is_over ≡ true → (piece ≡ []) × (self.new.is_over ≡ true)) }
        ensures end { IfOk result (λ at. at ≡ position (λ b. b == 10) self.new.held) }
        ensures all { IfOk result (λ at. at ≡ None → (self.new.is_over ≡ true) ⊎ (self.new.most < length self.new.held)) }
        ensures over { (self.old.is_over ≡ true → IsAtEnd (S.left source.old)) → self.new.is_over ≡ true → IsAtEnd (S.left source.new) }
        ensures most { self.new.most ≡ self.old.most }
        ensures cause { HasCause (S.failures source.old) (S.failures source.new) (S.is_steady source.old) (S.is_steady source.new) (IsErrOf result LinesBad.Fault) }
    {
        let mut end = line_end(&self.held);
        'pieces: while end.is_none() && !self.is_over && self.held.len() <= self.most {
            end = self.read_on(source)?;
        }
        Ok(end)
    }

    /// Reads a piece more, and answers where it has an LF.
    fn read_on<S: Source>(&mut self, source: &mut S) -> Result<Option<usize>, LinesBad>
        requires { self.old.is_over ≡ false }
        ensures reads { (piece : List ℕ) × Gives (S.left source.old) (S.left source.new) piece × OnOk result (self.new.held ≡ self.old.held ++ piece) }
        ensures end { position (λ b. b == 10) self.old.held ≡ None → IfOk result (λ at. at ≡ position (λ b. b == 10) self.new.held) }
        ensures more { OnOk result ((self.new.is_over ≡ true) ⊎ (length self.old.held < length self.new.held)) }
        ensures over { self.new.is_over ≡ true → IsAtEnd (S.left source.new) }
        ensures most { self.new.most ≡ self.old.most }
        ensures cause { HasCause (S.failures source.old) (S.failures source.new) (S.is_steady source.old) (S.is_steady source.new) (IsErrOf result LinesBad.Fault) }
    {
        let mut room = [0u8; 8192];
        match source.read(&mut room) {
            Got::Bytes(n) => {
                let before = self.held.len();
                self.held.extend_from_slice(&room[..n])?;
                match line_end(&room[..n]) {
                    Some(at) => Ok(Some(before + at)),
                    None => Ok(None),
                }
            }
            Got::End => {
                self.is_over = true;
                Ok(None)
            }
            Got::Failed => Err(LinesBad::Fault),
        }
    }

    /// Passes over the first line, of which more is held than is given of any.
    fn pass_over<S: Source>(&mut self, source: &mut S) -> Result<(), LinesBad>
        requires unended { position (λ b. b == 10) self.old.held ≡ None }
        requires long { self.old.most < length self.old.held }
        ensures passes { (piece : List ℕ) × Gives (S.left source.old) (S.left source.new) piece × (self.old.is_over ≡ true → (piece ≡ []) × (self.new.is_over ≡ true))
            × OnOk result ((more : List ℕ) → (self.new.is_over ≡ true → more ≡ []) → (row : Row)
            × (rows_of (self.old.held ++ (piece ++ more)) ≡ row ∷ rows_of (self.new.held ++ more)) × (nat_lt self.old.most (length row.bytes) ≡ true)) }
        ensures over { (self.old.is_over ≡ true → IsAtEnd (S.left source.old)) → self.new.is_over ≡ true → IsAtEnd (S.left source.new) }
        ensures most { self.new.most ≡ self.old.most }
        ensures cause { HasCause (S.failures source.old) (S.failures source.new) (S.is_steady source.old) (S.is_steady source.new) (IsErrOf result LinesBad.Fault) }
    {
        let mut end = None;
        let mut left = u64::MAX;
        self.held.clear();
        'pieces: while end.is_none() && !self.is_over {
            left -= 1;
            if left == 0 {
                return Err(LinesBad::Endless);
            }
            self.held.clear();
            end = self.read_on(source)?;
        }
        match end {
            Some(at) => {
                self.cut(at)?;
            }
            None => self.held.clear(),
        }
        Ok(())
    }

    /// Cuts off the line that an LF ends at this place.
    fn cut(&mut self, at: usize) -> Result<Vec<u8>, AllocError>
        requires within { at < length self.old.held }
        ensures line { IfOk result (λ line. line.items ≡ take at self.old.held) }
        ensures rest { OnOk result (self.new.held ≡ drop (at + 1) self.old.held) }
        ensures over { self.new.is_over ≡ self.old.is_over }
        ensures most { self.new.most ≡ self.old.most }
    {
        let mut behind = Vec::new(self.alloc);
        behind.extend_from_slice(&self.held[at + 1..])?;
        let mut line = replace(&mut self.held, behind);
        line.truncate(at);
        Ok(line)
    }

    /// Cuts off what is left, a line that nothing ends.
    fn rest(&mut self) -> Vec<u8>
        ensures line { result.items ≡ self.old.held }
        ensures rest { self.new.held ≡ [] }
        ensures over { self.new.is_over ≡ self.old.is_over }
        ensures most { self.new.most ≡ self.old.most }
    {
        replace(&mut self.held, Vec::new(self.alloc))
    }
}
