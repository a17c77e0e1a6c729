//! Files that are judged at once, a thread for each.

ghost use Rattle.std.specs.Prelude.{◌≡◌, ◌<◌, ◌≤◌, ◌+◌, ◌++◌, ◌∷◌, [], ℕ, List, Option, length, vec_len, IfOk, OnOk};
ghost use Rattle.ep_outside.specs.Disk.{Contents};
ghost use Rattle.ep_verify.specs.Files.{bytes_held, AreTold, IsFile, IsVerdictOn, names_in};
ghost use Rattle.ep_verify.specs.Verdicts.{IsWhat};

use crate::judging::judge;
use crate::running::{JudgedAs, Running};
use crate::verdict::{Verdict, What};
use ep_units::{NoMemory, PadId};
use std::alloc::Global;
use std::collections::VecDeque;
use std::snapshot::Snapshot;
use std::thread;
use std::thread::Threads;

/// How many bytes the files that are held together may have.
const MOST_HELD: u64 = 1_073_741_824;

/// The verdicts so far, and the files that threads judge, in their order.
#[derive(Drop)]
pub struct Window {
    pub alloc: Global,
    pub verdicts: Vec<Verdict>,
    pub running: VecDeque<Running>,
    pub workers: u32,
    pub held: u64,
    ghost at_work: { 1 ≤ workers },
    // no more than there are workers
    ghost few: { length running.items ≤ workers },
    ghost counted: { held ≡ bytes_held running.items },
    // a longer one is held alone
    ghost fits: { 1 < length running.items → held ≤ 1073741824 },
}

/// The verdict of the thread.
fn finish(rt: &impl Threads, running: Running) -> Result<Verdict, NoMemory>
    ensures { IfOk result (IsVerdictOn running) }
{
    let Running { name, child, .. } = running;
    let what = child.join(rt)?;
    Ok(Verdict { name, what })
}

impl Window {
    /// A window for so many workers.
    pub fn new(alloc: Global, workers: u32) -> Window
        requires { 1 ≤ workers }
        ensures verdicts { result.verdicts.items ≡ [] }
        ensures files { result.running.items ≡ [] }
    {
        Window {
            alloc,
            verdicts: Vec::new(alloc),
            running: VecDeque::new(alloc),
            workers,
            held: 0,
        }
    }

    /// The verdict on the first file, where there is one.
    fn finish_first(&mut self, rt: &impl Threads) -> Result<(), NoMemory>
        requires { 0 < length self.old.running.items }
        ensures names { OnOk result (names_in self.new.verdicts.items self.new.running.items ≡ names_in self.old.verdicts.items self.old.running.items) }
        ensures told { (told : List ℕ → Option Contents) → AreTold told self.old.verdicts.items self.old.running.items → OnOk result (AreTold told self.new.verdicts.items self.new.running.items) }
        ensures fewer { OnOk result (length self.new.running.items + 1 ≡ length self.old.running.items) }
        ensures workers { self.new.workers ≡ self.old.workers }
    {
        let Some(first) = self.running.pop_front() else {
            return Ok(());
        };
        self.held -= first.size;
        let verdict = finish(rt, first)?;
        self.verdicts.push(verdict)?;
        Ok(())
    }

    /// The verdicts on all files.
    pub fn finish_all(&mut self, rt: &impl Threads) -> Result<(), NoMemory>
        ensures names { OnOk result (names_in self.new.verdicts.items self.new.running.items ≡ names_in self.old.verdicts.items self.old.running.items) }
        ensures told { (told : List ℕ → Option Contents) → AreTold told self.old.verdicts.items self.old.running.items → OnOk result (AreTold told self.new.verdicts.items self.new.running.items) }
        ensures none { OnOk result (self.new.running.items ≡ []) }
        ensures workers { self.new.workers ≡ self.old.workers }
    {
        while !self.running.is_empty() {
            self.finish_first(rt)?;
        }
        Ok(())
    }

    /// Files are judged until one more of so many bytes may be held.
    pub fn make_room(&mut self, rt: &impl Threads, size: u64) -> Result<(), NoMemory>
        ensures names { OnOk result (names_in self.new.verdicts.items self.new.running.items ≡ names_in self.old.verdicts.items self.old.running.items) }
        ensures told { (told : List ℕ → Option Contents) → AreTold told self.old.verdicts.items self.old.running.items → OnOk result (AreTold told self.new.verdicts.items self.new.running.items) }
        ensures workers { OnOk result (length self.new.running.items < self.new.workers) }
        ensures bytes { OnOk result (0 < length self.new.running.items → self.new.held + size ≤ 1073741824) }
    {
        while !self.running.is_empty()
            && (self.running.len() >= self.workers as usize
                || self.held.saturating_add(size) > MOST_HELD)
        {
            self.finish_first(rt)?;
        }
        Ok(())
    }

    /// The caller judges one more file, where no thread runs.
    fn judge_here(&mut self, name: PadId, bytes: &[u8]) -> Result<(), NoMemory>
        requires { self.old.running.items ≡ [] }
        ensures names { OnOk result (names_in self.new.verdicts.items self.new.running.items ≡ names_in self.old.verdicts.items self.old.running.items ++ name ∷ []) }
        ensures told { (told : List ℕ → Option Contents) → AreTold told self.old.verdicts.items self.old.running.items → IsFile (told name) bytes.now → OnOk result (AreTold told self.new.verdicts.items self.new.running.items) }
        ensures workers { self.new.workers ≡ self.old.workers }
    {
        let what = judge(self.alloc, bytes)?;
        self.verdicts.push(Verdict { name, what })?;
        Ok(())
    }

    /// A thread judges one more file. With one worker the caller does, and where there can be no thread.
    pub fn start(
        &mut self,
        rt: &impl Threads,
        alloc: Global,
        name: PadId,
        bytes: Vec<u8>,
    ) -> Result<(), NoMemory>
        requires workers { length self.old.running.items < self.old.workers }
        requires bytes { 0 < length self.old.running.items → self.old.held + vec_len bytes ≤ 1073741824 }
        ensures names { OnOk result (names_in self.new.verdicts.items self.new.running.items ≡ names_in self.old.verdicts.items self.old.running.items ++ name ∷ []) }
        ensures told { (told : List ℕ → Option Contents) → AreTold told self.old.verdicts.items self.old.running.items → IsFile (told name) bytes.items → OnOk result (AreTold told self.new.verdicts.items self.new.running.items) }
    {
        if self.workers == 1 {
            return self.judge_here(name, &bytes);
        }
        let size = bytes.len() as u64;
        let promise = JudgedAs(Snapshot::of(&bytes));
        let child = thread::spawn_with(
            rt,
            promise,
            move || -> Result<What, NoMemory>
                ensures { IfOk result (IsWhat bytes.items) }
            { judge(alloc, &bytes) },
        );
        match child {
            Ok(child) => {
                self.running.push_back(Running { name, size, child })?;
                self.held += size;
            }
            Err(refused) => {
                self.finish_all(rt)?;
                let what = (refused.value)()?;
                self.verdicts.push(Verdict { name, what })?;
            }
        }
        Ok(())
    }
}
