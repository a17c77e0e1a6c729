//! How the program is used.

ghost use Rattle.std.specs.Prelude.{OnErr, OnOk};
ghost use Rattle.ep_outside.specs.Outside.{Takes, TakesPart};
ghost use Rattle.ep_move.specs.Lines.{usage};

use ep_outside::{Failed, Sink};

const USAGE: &str =
    "usage: padd play [NAME] | serve PADS API DIR KEY | write ADDR PAD TOKEN | verify DIR WORKERS | make NUMBER CLIENTS EDITS | export DIR PAD | import DIR PAD\n";

/// Says how the program is used.
pub fn say_usage<K: Sink>(sink: &mut K) -> Result<(), Failed>
    ensures said { OnOk result (Takes (K.held sink.old) (K.held sink.new) usage) }
    ensures part { OnErr result (TakesPart (K.held sink.old) (K.held sink.new) usage) }
{
    sink.write(USAGE.as_bytes())
}
