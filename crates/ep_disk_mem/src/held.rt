//! What a disk holds, and what isn't sure since its last sync.

ghost use Rattle.std.specs.Prelude.{◌≡◌, ◌+◌, ◌-◌, ◌≤◌, ◌<◌, ◌++◌, ◌∷◌, [], ℕ, List, length, take, drop, min, max, vec_len, vec_capacity, OnOk, Some};
ghost use Rattle.ep_outside.specs.Crash.{Restarts, image_at};
ghost use Rattle.ep_outside.specs.Disk.{MayLeave, settled, wrote, written, shortened};
ghost use Rattle.ep_disk_mem.specs.Held.{contents_of, HasSpace};

use crate::ranges::copy_ranges;
use crate::torn::{clamp, tear};
use ep_outside::Image;
use std::alloc::AllocError;

#[derive(Drop)]
pub struct Held {
    pub bytes: Vec<u8>,
    pub synced: Vec<u8>,
    pub ranges: Vec<(u64, u64)>,
    pub least: u64,
    pub most: u64,
}

impl Held {
    pub fn write_at(&mut self, at: u64, bytes: &[u8])
        requires inside { at ≤ length self.old.bytes.items }
        requires room { HasSpace self.old 1 (length bytes.now) }
        ensures contents { contents_of self.new ≡ wrote (contents_of self.old) at bytes.now (written self.old.bytes.items at bytes.now) }
        ensures room { (calls more : ℕ) → HasSpace self.old (calls + 1) (more + length bytes.now) → HasSpace self.new calls more }
    {
        let end = at + bytes.len() as u64;
        write_over(&mut self.bytes, at as usize, bytes);
        self.ranges.push_reserved((at, end));
        self.least = self.least.min(self.bytes.len() as u64);
        self.most = self.most.max(end);
    }

    pub fn cut(&mut self, to: u64)
        requires inside { to ≤ length self.old.bytes.items }
        ensures contents { contents_of self.new ≡ shortened (contents_of self.old) to (take to self.old.bytes.items) }
        ensures room { (calls more : ℕ) → HasSpace self.old (calls + 1) more → HasSpace self.new calls more }
    {
        self.bytes.truncate(to as usize);
        self.least = self.least.min(to);
    }

    /// Copies what was written since the last sync, and nothing else.
    pub fn sync(&mut self)
        requires room { length self.old.bytes.items ≤ vec_capacity self.old.synced }
        requires sound { MayLeave (contents_of self.old) self.old.bytes.items }
        ensures contents { contents_of self.new ≡ settled self.old.bytes.items }
        ensures room { (calls more : ℕ) → HasSpace self.old (calls + 1) more → HasSpace self.new calls more }
    {
        self.synced.truncate(self.bytes.len());
        copy_ranges(&mut self.synced, &self.bytes, &mut self.ranges);
        let had = self.synced.len();
        self.synced.extend_from_slice(&self.bytes[had..]).unwrap();
        self.least = self.bytes.len() as u64;
        self.most = self.least;
    }
}

impl Held {
    /// Makes room for so many bytes, and four calls.
    pub fn reserve(&mut self, bytes: usize) -> Result<(), AllocError>
        ensures room { length self.old.synced.items ≤ self.old.most → OnOk result (HasSpace self.new 4 bytes) }
        ensures contents { contents_of self.new ≡ contents_of self.old }
        ensures keeps { (calls more : ℕ) → HasSpace self.old calls more → HasSpace self.new calls more }
    {
        let most = self.most as usize;
        grow_to(&mut self.bytes, most)?;
        self.bytes.reserve(bytes)?;
        self.ranges.reserve(4)?;
        grow_to(&mut self.synced, self.bytes.len() + bytes)?;
        grow_to(&mut self.synced, most)?;
        Ok(())
    }

    /// Leaves the image of a restart, in sync.
    pub fn restart(&mut self, left: Option<u64>, asked: &Image)
        requires room { HasSpace self.old 0 0 }
        requires span { self.old.least ≤ self.old.most }
        ensures restarts { Restarts (Some (contents_of self.old)) (Some (contents_of self.new)) (image_at left asked.now) }
        ensures room { HasSpace self.new 0 0 }
    {
        match left {
            None => self.take_image(&Image::Old),
            Some(_) => self.take_image(asked),
        }
    }

    fn take_image(&mut self, asked: &Image)
        requires room { HasSpace self.old 0 0 }
        requires span { self.old.least ≤ self.old.most }
        ensures restarts { Restarts (Some (contents_of self.old)) (Some (contents_of self.new)) asked.now }
        ensures room { HasSpace self.new 0 0 }
    {
        match asked {
            Image::Old => copy_over(&mut self.bytes, &self.synced),
            Image::New => {}
            Image::Torn { length, fill } => {
                let total = clamp(*length, self.least, self.most) as usize;
                tear(&mut self.bytes, &self.synced, &self.ranges, fill, total);
            }
        }
        self.settle();
    }

    /// Copies the whole.
    fn settle(&mut self)
        requires { length self.old.bytes.items ≤ vec_capacity self.old.synced }
        ensures contents { contents_of self.new ≡ settled self.old.bytes.items }
        ensures room { (calls more : ℕ) → HasSpace self.old calls more → HasSpace self.new calls more }
    {
        copy_over(&mut self.synced, &self.bytes);
        self.ranges.clear();
        self.least = self.bytes.len() as u64;
        self.most = self.least;
    }
}

/// Puts bytes over those at a place, and past the end, within the capacity.
fn write_over(bytes: &mut Vec<u8>, at: usize, new: &[u8])
    requires inside { at ≤ vec_len bytes.old }
    requires room { vec_len bytes.old + length new.now ≤ vec_capacity bytes.old }
    ensures items { bytes.new.items ≡ written bytes.old.items at new.now }
    ensures len { vec_len bytes.new ≡ max (vec_len bytes.old) (at + length new.now) }
    ensures capacity { vec_capacity bytes.old ≤ vec_capacity bytes.new }
{
    let behind = bytes.len() - at;
    if new.len() <= behind {
        bytes[at..at + new.len()].copy_from_slice(new);
    } else {
        bytes.truncate(at);
        bytes.extend_from_slice(new).unwrap();
    }
}

/// Makes one list a copy of another, within its capacity.
fn copy_over(to: &mut Vec<u8>, from: &[u8])
    requires { length from.now ≤ vec_capacity to.old }
    ensures items { to.new.items ≡ from.now }
    ensures capacity { vec_capacity to.old ≤ vec_capacity to.new }
{
    to.clear();
    to.extend_from_slice(from).unwrap();
}

/// Makes the capacity at least this.
fn grow_to(v: &mut Vec<u8>, capacity: usize) -> Result<(), AllocError>
    ensures items { v.new.items ≡ v.old.items }
    ensures len { vec_len v.new ≡ vec_len v.old }
    ensures capacity { vec_capacity v.old ≤ vec_capacity v.new }
    ensures ok { OnOk result (capacity ≤ vec_capacity v.new) }
{
    if v.len() < capacity {
        v.reserve(capacity - v.len())?;
    }
    Ok(())
}
