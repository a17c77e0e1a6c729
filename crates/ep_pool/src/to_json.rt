//! The JSON of a pool.

ghost use Rattle.std.specs.Prelude.{◌≡◌, IfOk};
ghost use Rattle.serde_json.specs.Data.{no_members};
ghost use Rattle.serde_json.specs.View.{members_view, view};
ghost use Rattle.ep_pool.specs.Json.{numbered, pair_json, pool_json};
ghost use Rattle.ep_pool.specs.Pool.{pair_of};

use crate::pool::Pool;
use ep_attr::Attr;
use ep_units::NoMemory;
use itoa::Buffer;
use serde_json::{Map, Value};
use std::alloc::Global;

fn attr_json(alloc: Global, attr: &Attr) -> Result<Value, NoMemory>
    ensures { IfOk result (λ v. view v ≡ pair_json (pair_of attr.now)) }
{
    let mut texts = Vec::with_capacity(alloc, 2)?;
    texts.push(Value::String(attr.key.to_text_lossy(alloc)?))?;
    texts.push(Value::String(attr.value.to_text_lossy(alloc)?))?;
    Ok(Value::Array(texts))
}

impl Pool {
    fn numbered_json(&self, alloc: Global) -> Result<Map<String, Value>, NoMemory>
        ensures { IfOk result (λ m. members_view m.entries ≡ numbered no_members 0 self.now.pairs) }
    {
        let mut members = Map::new(alloc);
        let mut number = Buffer::new();
        for (n, attr) in self.attrs().iter().enumerate() {
            let json = attr_json(alloc, attr)?;
            serde_json::put(&mut members, alloc, number.format(n), json)?;
        }
        Ok(members)
    }

    /// How many attributes there are, and each as two texts under its number.
    pub fn to_json(&self, alloc: Global) -> Result<Value, NoMemory>
        ensures { IfOk result (λ v. view v ≡ pool_json self.now.pairs) }
    {
        let attrs = Value::Object(self.numbered_json(alloc)?);
        let mut members = Map::new(alloc);
        serde_json::put(&mut members, alloc, "nextNum", Value::from(self.len()))?;
        serde_json::put(&mut members, alloc, "numToAttrib", attrs)?;
        Ok(Value::Object(members))
    }
}
