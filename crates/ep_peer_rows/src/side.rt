//! A connection within the program.

ghost use Rattle.std.specs.Prelude.{true, refl, None};

use crossbeam_channel::{Receiver, SendError, Sender, unbounded};
use ep_link::{Link, LinkBad, LinkGot, NoEar};
use ep_outside::{Device, Text};
use ep_units::NoMemory;
use std::alloc::Global;
use std::sync::Wait;

/// One side of a connection. Once it is dropped the other side hears that it is gone.
pub struct Side {
    alloc: Global,
    to: Sender<String>,
    from: Receiver<String>,
}

impl Drop for Side {
    fn drop(self) {
        let Side {
            alloc: _,
            to: _,
            from: _,
        } = self;
    }
}

/// Both sides of a connection.
pub fn connection(alloc: Global) -> Result<(Side, Side), NoMemory> {
    let (there, from_here) = unbounded(alloc)?;
    let (back, from_there) = unbounded(alloc)?;
    let here = Side {
        alloc,
        to: there,
        from: from_there,
    };
    let there = Side {
        alloc,
        to: back,
        from: from_here,
    };
    Ok((here, there))
}

impl Device for Side {
    ghost failures = { λ _. 0 };

    ghost is_steady = { λ _. true };

    ghost never_fails = { λ _ _. refl };

    fn faults(&self) -> u64 {
        0
    }
}

impl Link for Side {
    type Ear = NoEar;

    ghost traffic = { λ _. None };

    fn recv<R: Wait>(&mut self, rt: &R) -> LinkGot {
        match self.from.recv(rt) {
            Ok(text) => LinkGot::Message(Text::from_string(text)),
            Err(_) => LinkGot::Closed,
        }
    }

    // What is sent to a side that is gone is lost.
    fn send<R: Wait>(&mut self, rt: &R, text: &str) -> Result<(), LinkBad> {
        let Ok(text) = String::from_str(self.alloc, text) else {
            return Err(LinkBad::NoMemory);
        };
        match self.to.send(rt, text) {
            Err(SendError::OutOfMemory(_)) => Err(LinkBad::NoMemory),
            Ok(()) | Err(SendError::Disconnected(_)) => Ok(()),
        }
    }

    fn ear(&self) -> Option<NoEar> {
        Some(NoEar)
    }
}
