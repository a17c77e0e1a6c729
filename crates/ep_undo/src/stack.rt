//! Stacks of edits that can be made.

ghost use Rattle.std.specs.Prelude.{◌≡◌, ◌+◌, ◌<◌, ◌≤◌, ◌++◌, ◌∷◌, [], true, is_some, length, take, vec_len, vec_capacity, IfOk, OnOk, OnErr, IsOk};
ghost use Rattle.std.specs.VecDeque.{deque_capacity, deque_len};
ghost use Rattle.ep_cs.specs.Doc.{Doc};
ghost use Rattle.ep_cs.specs.Edit.{apply};
ghost use Rattle.ep_cs.specs.Fits.{Fits};
ghost use Rattle.ep_history.specs.Kept.{kept_edited};
ghost use Rattle.ep_invert.specs.Inverse.{inverse};
ghost use Rattle.ep_undo.specs.Stacks.{essence, stood, AreAlike, AreHeard, HasRoom, IsSettled, IsStackOf, IsToHear, IsWay, Makes, Waits};
ghost use Rattle.ep_undo.specs.Undo.{top};

use ep_client::{Client, Told};
use ep_cs::{Change, First};
use ep_follow::follow;
use ep_invert::invert;
use ep_units::NoMemory;
use std::alloc::Global;
use std::collections::VecDeque;

/// The most edits of a stack.
const MOST: usize = 100;

/// An edit, and what was heard since it came on top, the first one first. It is an edit of what was there before that.
pub struct Record {
    pub(crate) change: Change,
    pub(crate) heard: Vec<Change>,
}

impl Drop for Record {
    fn drop(self) {
        let Record {
            change: _,
            heard: _,
        } = self;
    }
}

/// Edits that can be made, one after the other: the last one is the top.
pub struct Stack {
    pub(crate) records: VecDeque<Record>,
}

impl Drop for Stack {
    fn drop(self) {
        let Stack { records: _ } = self;
    }
}

/// An edit as it is behind what was heard, and that as it is behind the edit.
#[derive(Drop)]
pub struct Settled {
    pub(crate) change: Change,
    pub(crate) heard: Vec<Change>,
}

impl Record {
    /// The edit behind what was heard. Each costs two follows.
    fn settled(&self, alloc: Global) -> Result<Settled, NoMemory>
        requires { (base : Doc) × ((view : Doc) × (Fits self.now.change base × IsWay self.now.heard.items base view)) }
        ensures { IfOk result (λ s. IsSettled self.now s.change s.heard.items) }
    {
        let mut change = self.change.copy(alloc)?;
        let mut heard = Vec::with_capacity(alloc, self.heard.len())?;
        for next in &self.heard {
            let behind = follow(alloc, next, &change, First::A)?;
            let further = follow(alloc, &change, next, First::B)?;
            heard.push(further)?;
            change = behind;
        }
        Ok(Settled { change, heard })
    }

    /// The same record once more.
    fn copy(&self, alloc: Global) -> Result<Record, NoMemory>
        ensures { IfOk result (λ r. essence r ≡ essence self.now) }
    {
        Ok(Record {
            change: self.change.copy(alloc)?,
            heard: copy_all(alloc, &self.heard)?,
        })
    }

    /// More was heard. Where there is no memory it is not, and stays there.
    fn hear(&mut self, changes: &mut Vec<Change>) -> Result<(), NoMemory>
        ensures change { self.new.change ≡ self.old.change }
        ensures heard { OnOk result (self.new.heard.items ≡ self.old.heard.items ++ changes.old.items) }
        ensures kept { OnErr result (self.new.heard.items ≡ self.old.heard.items) }
        ensures moved { OnOk result (changes.new.items ≡ []) }
        ensures stays { OnErr result (changes.new.items ≡ changes.old.items) }
        ensures succeeds { vec_len self.old.heard + vec_len changes.old ≤ vec_capacity self.old.heard → IsOk result }
    {
        Ok(self.heard.append(changes)?)
    }

    /// Makes room for so many more.
    fn reserve(&mut self, more: usize) -> Result<(), NoMemory>
        ensures change { self.new.change ≡ self.old.change }
        ensures heard { self.new.heard.items ≡ self.old.heard.items }
        ensures room { OnOk result (vec_len self.new.heard + more ≤ vec_capacity self.new.heard) }
    {
        Ok(self.heard.reserve(more)?)
    }
}

impl Stack {
    /// None.
    pub fn new(alloc: Global) -> Stack
        ensures { result.records.items ≡ [] }
    {
        Stack {
            records: VecDeque::new(alloc),
        }
    }

    pub fn is_empty(&self) -> bool
        ensures { result ≡ true → self.now.records.items ≡ [] }
    {
        self.records.is_empty()
    }

    /// The same edits once more.
    pub fn copy(&self, alloc: Global) -> Result<Stack, NoMemory>
        ensures { IfOk result (λ s. AreAlike self.now.records.items s.records.items) }
    {
        let mut records = VecDeque::with_capacity(alloc, self.records.len())?;
        for record in self.records.iter() {
            records.push_back(record.copy(alloc)?)?;
        }
        Ok(Stack { records })
    }

    /// Whether there is a top.
    pub fn has_top(&self) -> bool
        ensures { result ≡ is_some (top (stood self.now.records.items [])) }
    {
        !self.records.is_empty()
    }

    /// None are left.
    pub fn clear(&mut self)
        ensures { self.new.records.items ≡ [] }
    {
        self.records.clear();
    }

    /// Makes room for one more.
    pub fn reserve(&mut self) -> Result<(), NoMemory>
        ensures same { self.new.records.items ≡ self.old.records.items }
        ensures room { OnOk result (deque_len self.new.records < deque_capacity self.new.records) }
    {
        Ok(self.records.reserve(1)?)
    }

    /// One more on top. It makes what the one below is an edit of.
    pub fn push(&mut self, alloc: Global, change: Change)
        requires { deque_len self.old.records < deque_capacity self.old.records }
        ensures edits { stood self.new.records.items [] ≡ change.edit ∷ stood self.old.records.items [] }
        ensures chain { (view : Doc) → Fits change view → IsStackOf self.old.records.items (apply change.edit view) → IsStackOf self.new.records.items view }
        ensures count { length self.new.records.items ≡ length self.old.records.items + 1 }
    {
        self.records.push_back_reserved(Record {
            change,
            heard: Vec::new(alloc),
        });
    }

    /// The lowest goes where there are more than 100.
    pub fn cut(&mut self)
        requires { length self.old.records.items ≤ 101 }
        ensures edits { stood self.new.records.items [] ≡ take 100 (stood self.old.records.items []) }
        ensures chain { (view : Doc) → IsStackOf self.old.records.items view → IsStackOf self.new.records.items view }
        ensures count { length self.new.records.items ≤ 100 }
    {
        if self.records.len() > MOST {
            self.records.pop_front();
        }
    }

    /// Makes room for so many more that are heard.
    pub fn reserve_heard(&mut self, more: usize) -> Result<(), NoMemory>
        ensures alike { AreAlike self.old.records.items self.new.records.items }
        ensures can { OnOk result (HasRoom more self.new.records.items) }
        ensures room { (deque_len self.new.records ≡ deque_len self.old.records) × (deque_capacity self.new.records ≡ deque_capacity self.old.records) }
    {
        let Some(mut top) = self.records.pop_back() else {
            return Ok(());
        };
        let made = top.reserve(more);
        self.records.push_back_reserved(top);
        made
    }

    /// Changes of the view are heard, and are moved in. Where there is no memory nothing is.
    pub fn hear(&mut self, changes: &mut Vec<Change>) -> Result<(), NoMemory>
        ensures heard { OnOk result (AreHeard self.old.records.items changes.old.items self.new.records.items) }
        ensures kept { OnErr result (AreAlike self.old.records.items self.new.records.items) }
        ensures moved { OnOk result (changes.new.items ≡ []) }
        ensures stays { OnErr result (changes.new.items ≡ changes.old.items) }
        ensures succeeds { HasRoom (vec_len changes.old) self.old.records.items → IsOk result }
        ensures room { (deque_len self.new.records ≡ deque_len self.old.records) × (deque_capacity self.new.records ≡ deque_capacity self.old.records) }
    {
        let Some(mut top) = self.records.pop_back() else {
            changes.clear();
            return Ok(());
        };
        let heard = top.hear(changes);
        self.records.push_back_reserved(top);
        heard
    }
}

/// The client makes an edit that fits its view.
fn make_edit(alloc: Global, client: &mut Client, change: &Change) -> Result<(), NoMemory>
    ensures made { OnOk result (client.new ≡ kept_edited change.now.edit client.old) }
    ensures kept { OnErr result (client.new ≡ client.old) }
{
    match client.edit(alloc, change) {
        Ok(()) => Ok(()),
        Err(_) => Err(NoMemory),
    }
}

/// The client makes an edit that stood on top of the rest, and what takes that back goes on another stack. Where there is no
/// memory all is as before.
fn make(
    alloc: Global,
    client: &mut Client,
    top: &Record,
    rest: &mut Stack,
    other: &mut Stack,
) -> Result<Change, NoMemory>
    requires chain { IsStackOf (rest.old.records.items ++ top.now ∷ []) client.old.view }
    requires others { IsStackOf other.old.records.items client.old.view }
    ensures fits { IfOk result (λ c. Fits c client.old.view) }
    ensures made { IfOk result (λ c. client.new ≡ kept_edited c.edit client.old) }
    ensures left { IfOk result (λ c. stood (rest.old.records.items ++ top.now ∷ []) [] ≡ c.edit ∷ stood rest.new.records.items []) }
    ensures chain { OnOk result (IsStackOf rest.new.records.items client.new.view) }
    ensures back { IfOk result (λ c. stood other.new.records.items [] ≡ inverse c.edit client.old.view ∷ stood other.old.records.items []) }
    ensures others { OnOk result (IsStackOf other.new.records.items client.new.view) }
    ensures kept { OnErr result (client.new ≡ client.old) }
    ensures rest_kept { OnErr result (AreAlike rest.old.records.items rest.new.records.items) }
    ensures others_kept { OnErr result (other.new.records.items ≡ other.old.records.items) }
    ensures room { (deque_len rest.new.records ≡ deque_len rest.old.records) × (deque_capacity rest.new.records ≡ deque_capacity rest.old.records) }
{
    let Settled { change, mut heard } = top.settled(alloc)?;
    let back = invert(alloc, &change, client.view())?;
    rest.reserve_heard(heard.len())?;
    other.reserve()?;
    make_edit(alloc, client, &change)?;
    rest.hear(&mut heard)?;
    other.push(alloc, back);
    Ok(change)
}

/// The client makes the top of a stack, where there is one, and what takes that back goes on another stack. Where there is no
/// memory all is as before.
pub fn make_top(
    alloc: Global,
    client: &mut Client,
    stack: &mut Stack,
    other: &mut Stack,
) -> Result<Option<Change>, NoMemory>
    requires chain { IsStackOf stack.old.records.items client.old.view }
    requires others { IsStackOf other.old.records.items client.old.view }
    ensures made { IfOk result (λ o. Makes client.old (stood stack.old.records.items []) (stood other.old.records.items []) o client.new (stood stack.new.records.items []) (stood other.new.records.items [])) }
    ensures chain { OnOk result (IsStackOf stack.new.records.items client.new.view × IsStackOf other.new.records.items client.new.view) }
    ensures kept { OnErr result ((client.new ≡ client.old) × AreAlike stack.old.records.items stack.new.records.items × (other.new.records.items ≡ other.old.records.items)) }
{
    let Some(top) = stack.records.pop_back() else {
        return Ok(None);
    };
    match make(alloc, client, &top, stack, other) {
        Ok(change) => Ok(Some(change)),
        Err(NoMemory) => {
            stack.records.push_back_reserved(top);
            Err(NoMemory)
        }
    }
}

/// What another changed of the view waits, where anything can be taken back or made again. What is the client's own changes
/// nothing of it.
pub fn take_news(undos: &Stack, redos: &Stack, recent: &mut Vec<Change>, told: Told, change: Change)
    requires { vec_len recent.old < vec_capacity recent.old }
    ensures { Waits told undos.now.records.items redos.now.records.items recent.old.items change recent.new.items }
{
    match told {
        Told::Commit => {}
        Told::News if undos.is_empty() && redos.is_empty() => recent.clear(),
        Told::News => recent.push_reserved(change),
    }
}

/// What was heard lately waits at both stacks now. Where there is no memory it still waits here.
pub fn spread(
    alloc: Global,
    undos: &mut Stack,
    redos: &mut Stack,
    recent: &mut Vec<Change>,
) -> Result<(), NoMemory>
    ensures undos { OnOk result (AreHeard undos.old.records.items recent.old.items undos.new.records.items) }
    ensures redos { OnOk result (AreHeard redos.old.records.items recent.old.items redos.new.records.items) }
    ensures recent { OnOk result (recent.new.items ≡ []) }
    ensures undos_kept { OnErr result (AreAlike undos.old.records.items undos.new.records.items) }
    ensures redos_kept { OnErr result (AreAlike redos.old.records.items redos.new.records.items) }
    ensures recent_kept { OnErr result (recent.new.items ≡ recent.old.items) }
{
    let mut copies = copies_for(alloc, redos, recent)?;
    undos.reserve_heard(recent.len())?;
    redos.hear(&mut copies)?;
    undos.hear(recent)
}

/// What a stack is to hear: the same changes once more, and none where it has nothing.
fn copies_for(alloc: Global, stack: &Stack, changes: &[Change]) -> Result<Vec<Change>, NoMemory>
    ensures { IfOk result (λ v. IsToHear stack.now.records.items changes.now v.items) }
{
    if stack.is_empty() {
        return Ok(Vec::new(alloc));
    }
    copy_all(alloc, changes)
}

/// The same changes once more.
pub fn copy_all(alloc: Global, changes: &[Change]) -> Result<Vec<Change>, NoMemory>
    ensures { IfOk result (λ v. v.items ≡ changes.now) }
{
    let mut copies = Vec::with_capacity(alloc, changes.len())?;
    for change in changes {
        copies.push(change.copy(alloc)?)?;
    }
    Ok(copies)
}
