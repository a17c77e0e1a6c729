//! What is written without a script.

ghost use Rattle.std.specs.Prelude.{◌≡◌, ◌≢◌, ◌⊎◌, true};
ghost use Rattle.ep_outside.specs.Outside.{HasRisen, Takes, TakesPart};

use crate::status::Status;
use ep_outside::Sink;

/// Writes a text, and answers this status, which isn't 5.
pub fn say<K: Sink>(sink: &mut K, text: &str, code: u8) -> Status
    requires { code ≢ 5 }
    ensures said { result.code ≡ code → Takes (K.held sink.old) (K.held sink.new) text.now }
    ensures part { TakesPart (K.held sink.old) (K.held sink.new) text.now }
    ensures known { (result.code ≡ code) ⊎ (result.code ≡ 5) }
    ensures cause { result.code ≡ 5 → HasRisen (K.failures sink.old) (K.failures sink.new) }
    ensures steady { K.is_steady sink.new ≡ K.is_steady sink.old }
    ensures complete { K.is_steady sink.old ≡ true → result.code ≡ code }
{
    match sink.write(text.as_bytes()) {
        Ok(()) => Status { code },
        Err(_) => Status { code: 5 },
    }
}
