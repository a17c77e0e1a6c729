//! Files that threads judge.

ghost use Rattle.std.specs.Prelude.{◌≡◌, vec_len};

use crate::verdict::What;
use ep_units::{NoMemory, PadId};
use std::snapshot::Snapshot;
use std::thread::{Promise, PromisedHandle};

/// The answer on these bytes.
#[derive(Drop)]
pub struct JudgedAs(pub Snapshot<Vec<u8>>);

impl Promise<Result<What, NoMemory>> for JudgedAs {
    ghost use Rattle.std.specs.Prelude.{IfOk};
    ghost use Rattle.ep_verify.specs.Verdicts.{IsWhat};

    ghost kept_by = { λ p r. IfOk r (IsWhat p.0.value.items) };
}

/// A file that a thread judges.
#[derive(Drop)]
pub struct Running {
    pub name: PadId,
    pub size: u64,
    pub child: PromisedHandle<Result<What, NoMemory>, JudgedAs>,
    ghost sized: { size ≡ vec_len child.promise.0.value },
}
