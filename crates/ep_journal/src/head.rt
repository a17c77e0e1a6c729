//! The bytes behind a gate.

ghost use Rattle.std.specs.Prelude.{◌≡◌, ◌+◌, ◌≤◌, ◌<◌, length, IfSome};
ghost use Rattle.ep_journal.specs.File.{size_behind};

/// The greatest length of a record.
pub const RECORD_MAX: u64 = 67_108_864;

/// The length of the record behind an open gate. `head` begins with the gate, from which on so many bytes
/// stand.
#[tactic(auto, unfolding(crate::specs::File::opens_head, crate::specs::File::size_at))]
pub fn size_of_head(head: &[u8], left: u64) -> Option<u64>
    requires { 5 ≤ length head.now }
    ensures size { result ≡ size_behind head.now left }
    ensures inside { IfSome result (λ n. n + 5 < left) }
    ensures small { IfSome result (λ n. n ≤ 67108864) }
{
    let size = u32::from_be_bytes([head[1], head[2], head[3], head[4]]) as u64;
    if head[0] == 1 && size <= RECORD_MAX && size + 5 < left {
        Some(size)
    } else {
        None
    }
}
