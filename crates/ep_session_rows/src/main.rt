//! Worked sessions: JSON Lines in, JSON Lines out, one reply to each request.
//!
//! A request has the calls made `before` on an empty house and directory in memory, what the `link` of the session answers
//! (with calls of other callers among its receives), the moment that the clock shows (`now`) and the session's ten `draws`.
//! It may have `limits`, `files` that the shelf holds, the numbers of the link's calls that are to fail (`fails`: receives and
//! sends are counted together), and a pad that is asked about behind the session (`asks`). So may calls of the house's
//! devices fail: of each file (`file_fails`), of the shelf (`shelf_fails`), and of the directory's keeper (`keeper_fails`),
//! which first puts the pairs that are `kept`, where there are any. The reply has what the session `sent` and how it ended,
//! and the numbers of its report; and of the pad asked about its `head`, and how many of its sessions are `live`.
#![tactic(auto)]

mod answer;
mod asked;
mod called;
mod desk;
mod given;
mod pad_calls;
mod played;
mod refusal;
mod standing;
mod stop;
mod told;

use crate::answer::answer;
use std::io;

fn main(rt: HostRuntime) -> io::Result<()> {
    let alloc = rt.alloc();
    for line in rt.lines(alloc) {
        let line = line?;
        if !line.is_empty() {
            let reply = answer(&rt, alloc, &line)?;
            println!(rt; "{reply}")?;
        }
    }
    Ok(())
}
