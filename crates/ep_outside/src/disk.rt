//! Disks.

ghost use Rattle.std.specs.Prelude.{◌≡◌, ◌+◌, ◌≤◌, ◌<◌, ◌^◌, ℕ, List, Bool, true, false, length, Option, Some, None, OnOk, OnErr, IfOk};
ghost use Rattle.ep_outside.specs.Disk.{Contents, Room, HasRoom, Spends, HasLength, Reaches, ReadsAt, Writes, Cuts, Syncs, Moves, IsImage, IsCall, ReadsAsLeft, GivesMore};

use crate::device::Device;
use crate::source::Failed;
use ep_units::NoMemory;

/// A file on a disk, which a crash may leave otherwise than a read gives it.
///
/// `length`, `read`, `write_at`, `cut` and `sync` are device calls. `reserve` is none, and no other call
/// takes memory.
pub trait Disk: Device {
    /// What a read gives and what a crash may leave, where it tells.
    ghost told: { Self → Option Contents };

    /// The moment, as a number that never falls.
    ghost moment: { Self → ℕ };

    /// What a crash at some moment from that one on might have left.
    ghost since: { Self → ℕ → List ℕ → Type 0 };

    /// The calls and the bytes for which there is room.
    ghost room: { Self → Room };

    /// How many device calls are left before a stop that was asked for.
    ghost left: { Self → Option ℕ } = { λ _. None };

    /// It tells that it fails in a stop alone.
    ghost stops_alone: { Self → Bool } = { λ _. false };

    /// How many bytes its reads have given, where it counts them; the count stands still at the greatest `u64`.
    ghost bytes_read: { Self → Option ℕ } = { λ _. None };

    fn length(&mut self) -> Result<u64, Failed>
        ensures value { IfOk result (HasLength (told self.old)) }
        ensures bound { IfOk result (λ n. n < 2 ^ 63) }
        ensures same { told self.new ≡ told self.old }
        ensures room { room self.new ≡ room self.old }
        ensures bytes_read { bytes_read self.new ≡ bytes_read self.old }
        ensures call { IsCall told moment since Self.failures Self.is_steady Self.plan stops_alone left self.old self.new result };

    /// Fills the whole `into` from a place on.
    fn read(&mut self, at: u64, into: &mut [u8]) -> Result<(), Failed>
        requires { Reaches (told self.old) (at + length into.old) }
        ensures value { OnOk result (ReadsAt (told self.old) at into.new) }
        ensures same { told self.new ≡ told self.old }
        ensures room { room self.new ≡ room self.old }
        ensures bytes_read { GivesMore (bytes_read self.old) (bytes_read self.new) (length into.new) result }
        ensures call { IsCall told moment since Self.failures Self.is_steady Self.plan stops_alone left self.old self.new result };

    fn write_at(&mut self, at: u64, bytes: &[u8]) -> Result<(), Failed>
        requires inside { Reaches (told self.old) at }
        requires room { HasRoom (room self.old) 1 (length bytes.now) }
        ensures writes { Writes (told self.old) (told self.new) at bytes.now result }
        ensures room { Spends (room self.old) (room self.new) (length bytes.now) }
        ensures bytes_read { bytes_read self.new ≡ bytes_read self.old }
        ensures stopped { left self.old ≡ Some 0 → told self.new ≡ told self.old }
        ensures call { IsCall told moment since Self.failures Self.is_steady Self.plan stops_alone left self.old self.new result };

    fn cut(&mut self, to: u64) -> Result<(), Failed>
        requires inside { Reaches (told self.old) to }
        requires room { HasRoom (room self.old) 1 0 }
        ensures cuts { Cuts (told self.old) (told self.new) to result }
        ensures room { Spends (room self.old) (room self.new) 0 }
        ensures bytes_read { bytes_read self.new ≡ bytes_read self.old }
        ensures stopped { left self.old ≡ Some 0 → told self.new ≡ told self.old }
        ensures call { IsCall told moment since Self.failures Self.is_steady Self.plan stops_alone left self.old self.new result };

    fn sync(&mut self) -> Result<(), Failed>
        requires { HasRoom (room self.old) 1 0 }
        ensures syncs { Syncs (told self.old) (told self.new) result }
        ensures room { Spends (room self.old) (room self.new) 0 }
        ensures bytes_read { bytes_read self.new ≡ bytes_read self.old }
        ensures stopped { left self.old ≡ Some 0 → told self.new ≡ told self.old }
        ensures call { IsCall told moment since Self.failures Self.is_steady Self.plan stops_alone left self.old self.new result };

    /// Makes room for four calls of `write_at`, `cut` and `sync` that write so many bytes in all.
    fn reserve(&mut self, bytes: u64) -> Result<(), NoMemory>
        ensures ok { OnOk result (HasRoom (room self.new) 4 bytes) }
        ensures err { OnErr result (room self.new ≡ room self.old) }
        ensures same { told self.new ≡ told self.old }
        ensures bytes_read { bytes_read self.new ≡ bytes_read self.old }
        ensures time { Moves (moment self.old) (moment self.new) (since self.old) (since self.new) (told self.new) }
        ensures failures { Self.failures self.new ≡ Self.failures self.old }
        ensures steady { Self.is_steady self.new ≡ Self.is_steady self.old }
        ensures stop { left self.new ≡ left self.old }
        ensures alone { stops_alone self.new ≡ stops_alone self.old };

    /// An image of now is one of those since an earlier moment.
    ghost counts_now: { (d : Self) (t : ℕ) (c : List ℕ) → t ≤ moment d → IsImage (told d) c → since d t c };

    /// Since this moment there is no other.
    ghost only_now: { (d : Self) (c : List ℕ) → since d (moment d) c → IsImage (told d) c };

    /// A disk as it reads is one of its images.
    ghost reads_as_left: { (d : Self) → ReadsAsLeft (told d) };
}
