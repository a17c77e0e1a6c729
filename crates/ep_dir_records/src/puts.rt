//! What a call of the directory puts at its end.

ghost use Rattle.std.specs.Prelude.{◌≡◌, ◌↔◌, ◌++◌, ◌∷◌, [], IsTrue, OnOk};
ghost use Rattle.ep_units.specs.Utf8.{utf8_of};
ghost use Rattle.ep_dir_records.specs.Keys.{count_put, gone, key, put};

use crate::keys::{Kind, count_key, key_text};
use crate::values::number_text;
use ep_outside::{Put, Text};
use ep_units::{NoMemory, Units};
use std::alloc::Global;
use std::marker::Model;

/// Puts, which contracts see as their list.
#[derive(Drop)]
pub struct Puts {
    items: Vec<Put>,
}

impl Model for Puts {
    ghost use Rattle.std.specs.Prelude.{List};
    ghost use Rattle.ep_outside.specs.declared.keeper.Put.{Put};

    ghost Value = { List Put };

    ghost view = { λ p. p.items.items };
}

impl Puts {
    pub fn new(alloc: Global) -> Puts
        ensures { result ≡ [] }
    {
        Puts {
            items: Vec::new(alloc),
        }
    }

    pub fn as_slice(&self) -> &[Put]
        ensures { result.now ≡ self.now }
    {
        self.items.as_slice()
    }

    pub fn is_empty(&self) -> bool
        ensures { IsTrue result ↔ (self.now ≡ []) }
    {
        self.items.is_empty()
    }

    fn push(&mut self, put: Put) -> Result<(), NoMemory>
        ensures { OnOk result (self.new ≡ self.old ++ put ∷ []) }
    {
        self.items.push(put)?;
        Ok(())
    }

    /// A value under a key.
    pub fn put(
        &mut self,
        alloc: Global,
        kind: Kind,
        name: &Units,
        value: Text,
    ) -> Result<(), NoMemory>
        ensures { OnOk result (self.new ≡ self.old ++ put (key kind name.now) value ∷ []) }
    {
        let key = key_text(alloc, kind, name)?;
        self.push(Put {
            key,
            value: Some(value),
        })
    }

    /// A text under a key.
    pub fn put_text(
        &mut self,
        alloc: Global,
        kind: Kind,
        name: &Units,
        value: &Units,
    ) -> Result<(), NoMemory>
        ensures { OnOk result (self.new ≡ self.old ++ put (key kind name.now) (utf8_of value.now) ∷ []) }
    {
        let value = Text::from_string(value.to_text_lossy(alloc)?);
        self.put(alloc, kind, name, value)
    }

    /// Nothing but the mark that the key is there.
    pub fn put_mark(&mut self, alloc: Global, kind: Kind, name: &Units) -> Result<(), NoMemory>
        ensures { OnOk result (self.new ≡ self.old ++ put (key kind name.now) [] ∷ []) }
    {
        let value = Text::from_str(alloc, "")?;
        self.put(alloc, kind, name, value)
    }

    /// A key removed.
    pub fn remove(&mut self, alloc: Global, kind: Kind, name: &Units) -> Result<(), NoMemory>
        ensures { OnOk result (self.new ≡ self.old ++ gone (key kind name.now) ∷ []) }
    {
        let key = key_text(alloc, kind, name)?;
        self.push(Put { key, value: None })
    }

    /// The count of ids given.
    pub fn put_count(&mut self, alloc: Global, n: u64) -> Result<(), NoMemory>
        ensures { OnOk result (self.new ≡ self.old ++ count_put n ∷ []) }
    {
        let key = count_key(alloc)?;
        let value = Some(number_text(alloc, n)?);
        self.push(Put { key, value })
    }
}
