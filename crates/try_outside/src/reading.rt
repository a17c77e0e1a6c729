//! Sources that are read to their end.

use ep_outside::{Device, Got, ReadBad, Source, read_all};
use std::alloc::Global;
use std::test::Fail;

/// A text that gives at most three bytes a read, and then ends or fails.
#[derive(Drop)]
struct Text<'a> {
    left: &'a [u8],
    is_broken: bool,
    faults: u64,
}

impl<'a> Device for Text<'a> {
    ghost use Rattle.std.specs.Prelude.{false};
    ghost use Rattle.std.proofs.Common.{true≢false, sym};

    ghost failures = { λ t. t.faults };

    ghost is_steady = { λ t. false };

    ghost never_fails = { λ t steady. absurd (true≢false (sym steady)) };

    fn faults(&self) -> u64 {
        self.faults
    }
}

impl<'a> Source for Text<'a> {
    ghost use Rattle.std.specs.Prelude.{Some};

    ghost left = { λ t. Some t.left.now };

    fn read(&mut self, room: &mut [u8]) -> Got {
        let n = self.left.len().min(room.len()).min(3);
        if n > 0 {
            room[..n].copy_from_slice(&self.left[..n]);
            self.left = &self.left[n..];
            return Got::Bytes(n);
        }
        if self.is_broken {
            self.faults = self.faults.saturating_add(1);
            return Got::Failed;
        }
        Got::End
    }
}

/// At most seven bytes of a text.
fn read_text(alloc: Global, left: &[u8], is_broken: bool) -> Result<Vec<u8>, ReadBad> {
    let mut text = Text {
        left,
        is_broken,
        faults: 0,
    };
    read_all(alloc, &mut text, 7)
}

/// Whether the whole text is read.
fn is_read(alloc: Global, text: &str) -> Result<bool, ReadBad> {
    let read = read_text(alloc, text.as_bytes(), false)?;
    Ok(read.as_slice() == text.as_bytes())
}

#[test]
fn whole(rt: HostRuntime) -> Result<(), Fail> {
    for text in ["", "a", "abcdefg"] {
        assert!(rt; is_read(rt.alloc(), text)?, "at {text}");
    }
    Ok(())
}

fn refusal(alloc: Global, text: &str, is_broken: bool) -> Option<ReadBad> {
    read_text(alloc, text.as_bytes(), is_broken).err()
}

#[test]
fn refused(rt: HostRuntime) {
    for (text, is_broken, bad) in [
        ("abcdefgh", false, ReadBad::TooLong),
        ("abcd", true, ReadBad::Fault),
    ] {
        assert_eq!(rt;
            refusal(rt.alloc(), text, is_broken),
            Some(bad),
            "at {text}"
        );
    }
}
