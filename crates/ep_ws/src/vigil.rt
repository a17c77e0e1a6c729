//! Who says nothing is let go.

use crate::patience::{Patience, Since};
use std::time::Clock;

/// What a caller of pads owes, and since when.
#[derive(Clone, Copy)]
pub struct Vigil {
    patience: Patience,
    // since the handshake, until the first message has come
    first: Option<Since>,
    // since a message has begun to come that is not whole
    message: Option<Since>,
    // since the last sign of life, or the last ping
    quiet: Since,
    // since the first ping that was not answered
    asked: Option<Since>,
}

impl Vigil {
    /// Begins behind the handshake.
    pub fn begin<C: Clock>(clock: &C, patience: Patience) -> Vigil {
        let now = Since::now(clock);
        Vigil {
            patience,
            first: Some(now),
            message: None,
            quiet: now,
            asked: None,
        }
    }

    /// Any whole frame is a sign of life.
    pub fn sees_life<C: Clock>(&mut self, clock: &C) {
        self.quiet = Since::now(clock);
        self.asked = None;
    }

    /// A message has come whole.
    pub fn sees_message<C: Clock>(&mut self, clock: &C) {
        self.sees_life(clock);
        self.first = None;
        self.message = None;
    }

    /// Nothing more is there. Amid a message, the rest is waited for.
    pub fn sees_nothing<C: Clock>(&mut self, clock: &C, is_amid: bool) {
        if !is_amid {
            self.message = None;
        } else if self.message.is_none() {
            self.message = Some(Since::now(clock));
        }
    }

    /// The caller has taken too long.
    pub fn is_over<C: Clock>(&self, clock: &C) -> bool {
        let Patience {
            first,
            message,
            answer,
            ..
        } = self.patience;
        self.first.is_some_and(|since| since.is_over(first, clock))
            || self
                .message
                .is_some_and(|since| since.is_over(message, clock))
            || self.asked.is_some_and(|since| since.is_over(answer, clock))
    }

    /// A ping is to be sent now.
    pub fn asks<C: Clock>(&mut self, clock: &C) -> bool {
        if !self.quiet.is_over(self.patience.ping, clock) {
            return false;
        }
        self.quiet = Since::now(clock);
        self.asked = self.asked.or(Some(self.quiet));
        true
    }
}
