//! Records that are ready to be appended.

ghost use Rattle.std.specs.Prelude.{◌≡◌, ◌+◌, ◌≤◌, ◌++◌, drop, length, IfOk};
ghost use Rattle.std.specs.Int.{w32, to_be_bytes};
ghost use Rattle.ep_journal.specs.File.{frame_of};

use ep_units::NoMemory;
use std::alloc::{AllocError, Global};
use std::marker::Model;

/// A record with its length before it and a closed gate behind it.
#[derive(Drop)]
pub struct Framed {
    bytes: Vec<u8>,
}

impl Model for Framed {
    ghost use Rattle.std.specs.Prelude.{List, ℕ};
    ghost use Rattle.ep_journal.specs.Frame.{record_in, IsFrame};

    ghost Value = { List ℕ };

    ghost view = { λ f. record_in f.bytes.items };

    ghost invariant = { λ f. IsFrame f.bytes.items };
}

impl Framed {
    #[tactic(auto, using(crate::proofs::Append::length_frame))]
    pub(crate) fn as_slice(&self) -> &[u8]
        ensures frame { result.now ≡ frame_of self.now }
        ensures len { length result.now ≡ length self.now + 5 }
        ensures small { length self.now ≤ 67108864 }
    {
        &self.bytes
    }

    /// The record in its frame, for whoever uses its memory again.
    pub fn into_bytes(self) -> Vec<u8>
        ensures { result.items ≡ frame_of self }
    {
        self.bytes
    }
}

/// So many bytes of a frame stand before its record.
pub const FRONT: usize = 4;

/// A record, ready to be appended.
pub fn frame(alloc: Global, rec: &[u8]) -> Result<Framed, NoMemory>
    requires { length rec.now ≤ 67108864 }
    ensures { IfOk result (λ framed. framed ≡ rec.now) }
{
    match framed_bytes(alloc, rec) {
        Ok(bytes) => Ok(Framed { bytes }),
        Err(AllocError) => Err(NoMemory),
    }
}

fn framed_bytes(alloc: Global, rec: &[u8]) -> Result<Vec<u8>, AllocError>
    requires { length rec.now ≤ 67108864 }
    ensures { IfOk result (λ bytes. bytes.items ≡ frame_of rec.now) }
{
    let size = (rec.len() as u32).to_be_bytes();
    let mut bytes = Vec::with_capacity(alloc, rec.len() + 5)?;
    bytes.extend_from_slice(&size)?;
    bytes.extend_from_slice(rec)?;
    bytes.push(0)?;
    Ok(bytes)
}

/// A record that was written behind the first bytes of a frame, whatever these are: ready to be appended, in the same memory.
pub fn frame_behind(bytes: Vec<u8>) -> Result<Framed, NoMemory>
    requires front { FRONT ≤ length bytes.items }
    requires small { length bytes.items ≤ 67108868 }
    ensures { IfOk result (λ framed. framed ≡ drop FRONT bytes.items) }
{
    match closed(bytes) {
        Ok(bytes) => Ok(Framed { bytes }),
        Err(AllocError) => Err(NoMemory),
    }
}

/// The same, with its frame.
fn closed(bytes: Vec<u8>) -> Result<Vec<u8>, AllocError>
    requires front { FRONT ≤ length bytes.items }
    requires small { length bytes.items ≤ 67108868 }
    ensures { IfOk result (λ framed. framed.items ≡ frame_of (drop FRONT bytes.items)) }
{
    let mut bytes = bytes;
    set_size(&mut bytes);
    bytes.push(0)?;
    Ok(bytes)
}

/// Writes how many bytes stand behind the front over it.
fn set_size(bytes: &mut [u8])
    requires front { FRONT ≤ length bytes.old }
    requires small { length bytes.old ≤ 67108868 }
    ensures { bytes.new ≡ to_be_bytes w32 (length (drop FRONT bytes.old)) ++ drop FRONT bytes.old }
{
    let (front, rec) = bytes.split_at_mut(FRONT);
    front.copy_from_slice(&(rec.len() as u32).to_be_bytes());
}
