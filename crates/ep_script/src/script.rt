//! A script, read line by line from a source.

ghost use Rattle.std.specs.Prelude.{◌≡◌, ◌<◌, ◌+◌, ◌++◌, ◌==◌, ◌^◌, ◌||◌, ◌⊎◌, [], List, ℕ, true, false, nat_lt, length, position, take, drop, None, IfOk, IsErrOf, OnOk};
ghost use Rattle.ep_outside.specs.Outside.{Gives, HasCause, IsAtEnd};
ghost use Rattle.ep_script.specs.Lines.{without_cr};
ghost use Rattle.ep_script.specs.Script.{IsNext, MayFollow, most_line, most_script};

use ep_outside::{Got, Source};
use std::alloc::{AllocError, Global};
use std::marker::Model;
use std::mem::replace;
use thiserror::Error;

/// The most bytes that a line may have, its line feed not counted.
pub const MOST_LINE: usize = 1_048_576;

/// The last byte of a script at which a line may end.
pub const MOST_SCRIPT: u64 = 1_073_741_824;

/// A script of which so many lines were read. No more of it is held than a line needs, and what came with that.
#[derive(Drop)]
pub struct Script {
    alloc: Global,
    held: Vec<u8>,
    place: u64,
    is_over: bool,
}

impl Model for Script {
    ghost use Rattle.ep_script.specs.Script.{Unread};

    ghost Value = { Unread };

    ghost view = { λ s. record { held = s.held.items; place = s.place; is_over = s.is_over } };
}

/// A line of a script.
#[derive(Drop)]
pub enum ScriptLine {
    /// Its bytes, without what ends it.
    Text(Vec<u8>),
    /// It is longer than a line may be, or ends behind the last byte at which one may.
    Long,
}

/// Why a script was not read on.
#[derive(Clone, Copy, Debug, Error, PartialEq, Eq)]
pub enum ScriptBad {
    #[error("the source failed")]
    Fault,
    #[error("out of memory")]
    NoMemory,
}

impl From<AllocError> for ScriptBad {
    ghost use Rattle.std.specs.Prelude.{◌≡◌};
    ghost use Rattle.ep_script.specs.declared.script.ScriptBad.TheVariants.{NoMemory};

    ghost from_gives = { λ _ e. e ≡ NoMemory };

    fn from(_error: AllocError) -> ScriptBad {
        ScriptBad::NoMemory
    }
}

fn line_end(bytes: &[u8]) -> Option<usize>
    ensures { result ≡ position (λ b. b == 10) bytes.now }
{
    bytes.iter().position(|b| *b == b'\n')
}

fn without_cr(line: &[u8]) -> &[u8]
    ensures { result.now ≡ without_cr line.now }
{
    match line.strip_suffix(b"\r") {
        Some(before) => before,
        None => line,
    }
}

impl Script {
    /// A script of which nothing is read.
    pub fn new(alloc: Global) -> Script
        ensures held { result.held ≡ [] }
        ensures place { result.place ≡ 0 }
        ensures over { result.is_over ≡ false }
    {
        Script {
            alloc,
            held: Vec::new(alloc),
            place: 0,
            is_over: false,
        }
    }

    /// The next line, if there is one. Behind a line that is too long nothing more is to be read.
    pub fn next_line<S: Source>(&mut self, source: &mut S) -> Result<Option<ScriptLine>, ScriptBad>
        ensures next { (piece : List ℕ) × Gives (S.left source.old) (S.left source.new) piece
            × ((more : List ℕ) → MayFollow self.new (S.left source.new) more
            → MayFollow self.old (S.left source.old) (piece ++ more) × IsNext self.old piece self.new more result) }
        ensures over { (self.old.is_over ≡ true → IsAtEnd (S.left source.old)) → self.new.is_over ≡ true → IsAtEnd (S.left source.new) }
        ensures cause { HasCause (S.failures source.old) (S.failures source.new) (S.is_steady source.old) (S.is_steady source.new) (IsErrOf result ScriptBad.Fault) }
    {
        match self.find(source)? {
            Some(at) => {
                if self.is_long(at) {
                    return Ok(Some(ScriptLine::Long));
                }
                Ok(Some(ScriptLine::Text(self.cut(at)?)))
            }
            None => {
                if self.held.is_empty() {
                    return Ok(None);
                }
                if self.is_long(self.held.len()) {
                    return Ok(Some(ScriptLine::Long));
                }
                Ok(Some(ScriptLine::Text(self.rest())))
            }
        }
    }

    /// Reads on until what is held tells where its first line ends, or that the line is too long, or the last.
    fn find<S: Source>(&mut self, source: &mut S) -> Result<Option<usize>, ScriptBad>
        ensures reads { (piece : List ℕ) × Gives (S.left source.old) (S.left source.new) piece × OnOk result (self.new.held ≡ self.old.held ++ piece)
            × (self.old.is_over ≡ true → (piece ≡ []) × (self.new.is_over ≡ true)) }
        ensures end { IfOk result (λ at. at ≡ position (λ b. b == 10) self.new.held) }
        ensures all { IfOk result (λ at. at ≡ None → (self.new.is_over ≡ true) ⊎ (most_line < length self.new.held)) }
        ensures over { (self.old.is_over ≡ true → IsAtEnd (S.left source.old)) → self.new.is_over ≡ true → IsAtEnd (S.left source.new) }
        ensures place { self.new.place ≡ self.old.place }
        ensures cause { HasCause (S.failures source.old) (S.failures source.new) (S.is_steady source.old) (S.is_steady source.new) (IsErrOf result ScriptBad.Fault) }
    {
        let mut end = line_end(&self.held);
        'pieces: while end.is_none() && !self.is_over && self.held.len() <= MOST_LINE {
            end = self.read_on(source)?;
        }
        Ok(end)
    }

    /// Reads a piece more, and answers where it has a line feed.
    fn read_on<S: Source>(&mut self, source: &mut S) -> Result<Option<usize>, ScriptBad>
        requires { self.old.is_over ≡ false }
        ensures reads { (piece : List ℕ) × Gives (S.left source.old) (S.left source.new) piece × OnOk result (self.new.held ≡ self.old.held ++ piece) }
        ensures end { position (λ b. b == 10) self.old.held ≡ None → IfOk result (λ at. at ≡ position (λ b. b == 10) self.new.held) }
        ensures more { OnOk result ((self.new.is_over ≡ true) ⊎ (length self.old.held < length self.new.held)) }
        ensures over { self.new.is_over ≡ true → IsAtEnd (S.left source.new) }
        ensures place { self.new.place ≡ self.old.place }
        ensures cause { HasCause (S.failures source.old) (S.failures source.new) (S.is_steady source.old) (S.is_steady source.new) (IsErrOf result ScriptBad.Fault) }
    {
        let mut room = [0u8; 4096];
        match source.read(&mut room) {
            Got::Bytes(n) => {
                let before = self.held.len();
                self.held.extend_from_slice(&room[..n])?;
                match line_end(&room[..n]) {
                    Some(at) => Ok(Some(before + at)),
                    None => Ok(None),
                }
            }
            Got::End => {
                self.is_over = true;
                Ok(None)
            }
            Got::Failed => Err(ScriptBad::Fault),
        }
    }

    /// Whether a line of so many bytes is too long, or ends too far.
    fn is_long(&self, n: usize) -> bool
        ensures { result ≡ (nat_lt most_line n || nat_lt most_script (self.now.place + n)) }
    {
        n > MOST_LINE || self.place.saturating_add(n as u64) > MOST_SCRIPT
    }

    /// Cuts off the line that a line feed ends at this place.
    fn cut(&mut self, at: usize) -> Result<Vec<u8>, AllocError>
        requires within { at < length self.old.held }
        requires short { self.old.place + at < 2 ^ 63 }
        ensures line { IfOk result (λ line. line.items ≡ without_cr (take at self.old.held)) }
        ensures rest { OnOk result (self.new.held ≡ drop (at + 1) self.old.held) }
        ensures place { OnOk result (self.new.place ≡ self.old.place + (at + 1)) }
        ensures over { self.new.is_over ≡ self.old.is_over }
    {
        let mut behind = Vec::new(self.alloc);
        behind.extend_from_slice(&self.held[at + 1..])?;
        let mut line = replace(&mut self.held, behind);
        line.truncate(at);
        let n = without_cr(&line).len();
        line.truncate(n);
        self.place += at as u64 + 1;
        Ok(line)
    }

    /// Cuts off what is left, a line that nothing ends.
    fn rest(&mut self) -> Vec<u8>
        requires short { self.old.place + length self.old.held < 2 ^ 63 }
        ensures line { result.items ≡ self.old.held }
        ensures rest { self.new.held ≡ [] }
        ensures place { self.new.place ≡ self.old.place + length self.old.held }
        ensures over { self.new.is_over ≡ self.old.is_over }
    {
        let line = replace(&mut self.held, Vec::new(self.alloc));
        self.place += line.len() as u64;
        line
    }
}
