//! The records of a file that lies in memory.

ghost use Rattle.std.specs.Prelude.{◌==◌, get_or, [], ◌≡◌, ◌+◌, ◌≤◌, ◌<◌, ◌++◌, length, map, take, drop, List, ℕ, Option, Some, None, IfOk, IfSome, IsTrue, bytes_eq};
ghost use Rattle.ep_journal.specs.File.{size_behind, records_from, stands_for, header};

use crate::head::size_of_head;
use ep_units::NoMemory;
use std::alloc::{AllocError, AllocFailed, Global};
use std::marker::Model;

/// What a journal's file begins with: `EPADJNL1`.
pub const HEADER: [u8; 8] = [69, 80, 65, 68, 74, 78, 76, 49];

/// The records of a file, in order.
#[derive(Drop)]
pub struct Records {
    list: Vec<Vec<u8>>,
}

impl Model for Records {
    ghost use Rattle.std.specs.Prelude.{List, ℕ, map};

    ghost Value = { List (List ℕ) };

    ghost view = { λ r. map (λ v. v.items) r.list.items };
}

impl Records {
    pub fn len(&self) -> usize
        ensures { result ≡ length self.now }
    {
        self.list.len()
    }

    pub fn is_empty(&self) -> bool
        ensures { result ≡ (length self.now == 0) }
    {
        self.list.is_empty()
    }

    pub fn get(&self, i: usize) -> &[u8]
        requires { i < length self.now }
        ensures { result.now ≡ get_or self.now i [] }
    {
        &self.list[i]
    }

    pub fn into_vec(self) -> Vec<Vec<u8>>
        ensures { map (λ v. v.items) result.items ≡ self }
    {
        self.list
    }
}

/// Whether the first bytes are the header.
pub fn is_header(front: &[u8]) -> bool
    requires { length front.now ≡ 8 }
    ensures { result ≡ bytes_eq front.now header }
{
    front == HEADER.as_slice()
}

/// The length of the record behind the gate at the front.
#[tactic(auto, using(crate::proofs::Mending::short_shut))]
fn size_in(rest: &[u8]) -> Option<usize>
    ensures size { result ≡ size_behind rest.now (length rest.now) }
    ensures inside { IfSome result (λ n. n + 5 < length rest.now) }
    ensures small { IfSome result (λ n. n ≤ 67108864) }
{
    if rest.len() < 6 {
        return None;
    }
    match size_of_head(rest, rest.len() as u64) {
        None => None,
        Some(size) => Some(size as usize),
    }
}

fn records_in(alloc: Global, bytes: &[u8]) -> Result<Vec<Vec<u8>>, AllocError>
    ensures { IfOk result (λ list. map (λ v. v.items) list.items ≡ records_from 0 bytes.now) }
{
    let mut list = Vec::new(alloc);
    let mut rest = bytes;
    while let Some(size) = size_in(rest) {
        let (block, after) = rest.split_at(5 + size);
        let (_, content) = block.split_at(5);
        list.push(Vec::from_slice(alloc, content)?)?;
        rest = after;
    }
    Ok(list)
}

/// The records that a file stands for; `None` where it is no journal.
pub fn scan(alloc: Global, bytes: &[u8]) -> Result<Option<Records>, NoMemory>
    ensures { IfOk result (λ records. records ≡ stands_for bytes.now) }
{
    if bytes.len() <= 9 {
        return Ok(Some(Records {
            list: Vec::new(alloc),
        }));
    }
    let (front, rest) = bytes.split_at(8);
    if !is_header(front) {
        return Ok(None);
    }
    match records_in(alloc, rest) {
        Ok(list) => Ok(Some(Records { list })),
        Err(AllocError) => Err(NoMemory),
    }
}
