//! Records that are ready to be appended.

ghost use Rattle.std.specs.Prelude.{◌≡◌, ◌≤◌, length};
ghost use Rattle.ep_record.specs.Bytes.{IsEncoding};

use ep_journal::Framed;
use ep_record::Record;
use std::marker::Model;

/// Of more bytes the memory isn't kept for another record.
const MOST_SPARE: usize = 65_536;

/// A record as it will stand in the file.
#[derive(Drop)]
pub struct Prepared {
    framed: Framed,
}

impl Model for Prepared {
    ghost use Rattle.std.specs.Prelude.{◌≤◌, length};
    ghost use Rattle.ep_record.specs.Bytes.{IsEncoding};
    ghost use Rattle.ep_history.specs.declared.record.Record.{Record};
    ghost use Rattle.ep_pad_file.specs.Standing.{record_in};

    ghost Value = { Record };

    ghost view = { λ p. record_in p.framed };

    ghost invariant = { λ p. IsEncoding p.framed (record_in p.framed) × (length p.framed ≤ 67108864) };
}

impl Prepared {
    /// What is framed is the record's bytes.
    pub(crate) fn new(framed: Framed, entry: &Record) -> Prepared
        requires bytes { IsEncoding framed entry.now }
        requires small { length framed ≤ 67108864 }
        ensures { result ≡ entry.now }
    {
        Prepared { framed }
    }

    pub(crate) fn framed(&self) -> &Framed
        ensures bytes { IsEncoding result.now self.now }
        ensures small { length result.now ≤ 67108864 }
    {
        &self.framed
    }

    /// Its memory for another record, unless that is much.
    pub(crate) fn into_spare(self) -> Option<Vec<u8>> {
        let bytes = self.framed.into_bytes();
        if bytes.capacity() > MOST_SPARE {
            return None;
        }
        Some(bytes)
    }
}
