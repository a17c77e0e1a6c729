//! For how many connections a process has room.

ghost use Rattle.std.specs.Prelude.{◌≤◌};

/// The most connections at a time, whatever the machine gives.
const MOST_CONNECTIONS: u64 = 4_096;

/// Threads that are left to the program itself, and to others of its user.
const OTHER_THREADS: u64 = 8;

/// A connection has a thread, and the one before it in its place may not quite have ended.
const THREADS_FOR_EACH: u64 = 2;

/// A connection has three open files: its socket, what waits for it, and its bell. A quarter of all files is left to pads
/// and the database.
const FILES_FOR_EACH: u64 = 4;

/// How many connections there may be under the limits of a process, as `/proc/self/limits` tells them: 4,096, or fewer
/// where the process may not have so many threads or open files, and one at least.
pub fn connections_under(limits: &str) -> u64
    ensures some { 1 ≤ result }
    ensures most { result ≤ 4096 }
{
    let threads = limit_of(limits, "Max processes").saturating_sub(OTHER_THREADS);
    let threads = threads / THREADS_FOR_EACH;
    let files = limit_of(limits, "Max open files") / FILES_FOR_EACH;
    threads.min(files).min(MOST_CONNECTIONS).max(1)
}

// What stands first behind a name; the greatest `u64` where that is no number.
fn limit_of(limits: &str, name: &str) -> u64 {
    for line in limits.lines() {
        if let Some(rest) = line.strip_prefix(name) {
            return match rest.trim().split(' ').next() {
                Some(word) => word.parse::<u64>().unwrap_or(u64::MAX),
                None => u64::MAX,
            };
        }
    }
    u64::MAX
}
