//! Bytes of a source, piece by piece.

ghost use Rattle.std.specs.Prelude.{◌≡◌, ◌≤◌, ◌<◌, ◌+◌, length};
ghost use Rattle.ep_http.specs.Pieces.{TakesPiece, ReadsOn};

use crate::bad::HttpBad;
use ep_outside::{Got, Source};

/// Adds what the source gives at once, at least one byte and at most so many; `false` where it is at its end.
pub fn take_piece<S: Source>(
    source: &mut S,
    bytes: &mut Vec<u8>,
    most: usize,
) -> Result<bool, HttpBad>
    requires { 0 < most }
    ensures piece { TakesPiece (S.left source.old) (S.left source.new) (S.failures source.old) (S.failures source.new) bytes.old.items bytes.new.items most result }
    ensures later { S.failures source.old ≤ S.failures source.new }
    ensures steady { S.is_steady source.new ≡ S.is_steady source.old }
{
    let mut room = [0u8; 4096];
    let n = most.min(4096);
    match source.read(&mut room[..n]) {
        Got::Bytes(k) => {
            bytes.extend_from_slice(&room[..k])?;
            Ok(true)
        }
        Got::End => Ok(false),
        Got::Failed => Err(HttpBad::Read(source.faults())),
    }
}

/// Reads on until so many bytes stand behind the start.
pub fn read_body<S: Source>(
    source: &mut S,
    bytes: &mut Vec<u8>,
    start: usize,
    long: u64,
) -> Result<(), HttpBad>
    requires { start ≤ length bytes.old.items }
    ensures reads { ReadsOn (S.left source.old) (S.left source.new) (S.failures source.old) (S.failures source.new) bytes.old.items bytes.new.items start long result }
    ensures later { S.failures source.old ≤ S.failures source.new }
    ensures steady { S.is_steady source.new ≡ S.is_steady source.old }
{
    while bytes.len() - start < long as usize {
        let most = long as usize - (bytes.len() - start);
        if !take_piece(source, bytes, most)? {
            return Err(HttpBad::Short);
        }
    }
    Ok(())
}
