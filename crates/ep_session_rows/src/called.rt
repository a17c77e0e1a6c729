//! The house that sessions are served from, and the calls of others on it.

use crate::asked::{pad, text, whole};
use crate::desk::{call_directory, grant};
use crate::pad_calls::{call_pad, log_in};
use crate::stop::Stop;
use ep_disk_mem::MemShelf;
use ep_keep::MapKeeper;
use ep_outside::{Keeper, Shelf};
use ep_pad_port::{House, HouseOf, PadCalls};
use ep_units::{Grant, PadId};
use serde_json::Value;
use std::alloc::Global;
use std::sync::Wait;

/// A house in memory.
pub type MemHouse = House<MemShelf, MapKeeper>;

/// A house in memory, with what its calls allocate from.
pub struct Ports {
    pub alloc: Global,
    pub house: MemHouse,
}

impl Drop for Ports {
    fn drop(self) {
        let Ports { alloc: _, house: _ } = self;
    }
}

// That a house is both ports is proved of any, and not again of one in memory.
fn log_in_at<R: Wait, H: Shelf + Drop, P: PadCalls<H::D>, K: Keeper + Drop>(
    rt: &R,
    house: &HouseOf<H, P, K>,
    grant: &Grant,
    now: u64,
) {
    log_in(rt, house, grant, now);
}

fn call_pad_at<R: Wait, H: Shelf + Drop, P: PadCalls<H::D>, K: Keeper + Drop>(
    rt: &R,
    alloc: Global,
    house: &HouseOf<H, P, K>,
    pad: &PadId,
    call: &Value,
) -> Result<(), Stop> {
    call_pad(rt, alloc, house, pad, call)
}

impl Ports {
    fn login<R: Wait>(&self, rt: &R, call: &Value) -> Result<(), Stop> {
        let now = whole(call, "now")?;
        if let Some(grant) = grant(rt, self.alloc, &self.house, call)? {
            log_in_at(rt, &self.house, &grant, now);
        }
        Ok(())
    }

    fn call_pad<R: Wait>(&self, rt: &R, call: &Value) -> Result<(), Stop> {
        let pad = pad(self.alloc, text(call, "pad")?)?;
        call_pad_at(rt, self.alloc, &self.house, &pad, call)
    }

    /// A call of another caller.
    pub fn call<R: Wait>(&self, rt: &R, call: &Value) -> Result<(), Stop> {
        match text(call, "call")? {
            "login" => self.login(rt, call),
            "create_group" | "create_author" | "add_group_pad" | "create_session" | "read_only" => {
                call_directory(rt, self.alloc, &self.house, call)
            }
            _ => self.call_pad(rt, call),
        }
    }
}
