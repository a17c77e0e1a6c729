//! One line: its edit is made, sent, and waited for.

ghost use Rattle.std.specs.Prelude.{◌≡◌, ◌≤◌, ℕ, IfOk, IfSome, OnOk};
ghost use Rattle.ep_history.specs.Kept.{kept_submission};
ghost use Rattle.ep_local.specs.Local.{local_bad};
ghost use Rattle.ep_wire_words.specs.declared.client.ClientMsg.TheVariants as msgs;
ghost use Rattle.ep_script.specs.Seen.{EditTexts};
ghost use Rattle.ep_script.specs.WriteLine.{write_line_of};
ghost use Rattle.ep_peer.specs.Cuts.{cut_of};
ghost use Rattle.ep_peer.specs.Writer.{Commit, Goes, Listening, Reading, Sending, editing, lined, said_line, submits};
ghost use Rattle.ep_peer.specs.Parts.{Comes, Done, IsLinkCaused, IsUnsent, SendsAs};

use crate::bad::{PeerBad, Reason, bad_of_line, bad_of_splice};
use crate::hear::await_commit;
use crate::say::say;
use ep_client::{Client, Submission};
use ep_event::Local;
use ep_link::Link;
use ep_local::edit_view;
use ep_script::{ScriptLine, WriteLine, read_write_line};
use ep_wire_words::ClientMsg;
use std::alloc::Global;
use std::sync::Wait;

// The message of what a client submitted.
fn changes(sent: Submission) -> ClientMsg
    ensures { result ≡ msgs.Edit sent.base sent.change }
{
    ClientMsg::Edit {
        base: sent.base,
        change: sent.change,
    }
}

// Sends what a client submitted, and waits for its commit.
fn send<R: Wait, L: Link>(
    rt: &R,
    alloc: Global,
    link: &mut L,
    client: &mut Client,
    sent: Submission,
) -> Result<(), PeerBad>
    requires { sent ≡ kept_submission client.old }
    ensures done { (n : ℕ) → Done (L.traffic link.old) (L.traffic link.new) (Goes (Sending n client.old)) result (λ _. Goes (Reading n client.new)) }
    ensures cause { IsLinkCaused result (L.failures link.old) (L.failures link.new) }
    ensures later { L.failures link.old ≤ L.failures link.new }
{
    let edit = changes(sent);
    say(rt, alloc, link, &edit)?;
    await_commit(rt, alloc, link, client)
}

// Submits what the client has edited, where that alters something.
fn submit<R: Wait, L: Link>(
    rt: &R,
    alloc: Global,
    link: &mut L,
    client: &mut Client,
) -> Result<(), PeerBad>
    ensures done { (n : ℕ) → Done (L.traffic link.old) (L.traffic link.new) (submits n client.old) result (λ _. Goes (Reading n client.new)) }
    ensures cause { IsLinkCaused result (L.failures link.old) (L.failures link.new) }
    ensures later { L.failures link.old ≤ L.failures link.new }
{
    match client.submit(alloc)? {
        None => Ok(()),
        Some(sent) => send(rt, alloc, link, client, sent),
    }
}

// Edits what the client sees.
fn edit(alloc: Global, client: &mut Client, line: u64, edit: &Local) -> Result<(), PeerBad>
    requires { EditTexts edit.now }
    ensures edits { Comes (editing line client.old edit.now (local_bad edit.now client.old.view)) result (λ _. submits line client.new) }
    ensures cause { (before now : ℕ) → IsLinkCaused result before now }
{
    match edit_view(alloc, client, edit)? {
        None => Ok(()),
        Some(bad) => Err(bad_of_splice(line, bad)),
    }
}

// Writes an edit.
fn write_edit<R: Wait, L: Link>(
    rt: &R,
    alloc: Global,
    link: &mut L,
    client: &mut Client,
    line: u64,
    local: &Local,
) -> Result<(), PeerBad>
    requires { EditTexts local.now }
    ensures done { Done (L.traffic link.old) (L.traffic link.new) (editing line client.old local.now (local_bad local.now client.old.view)) result (λ _. Goes (Reading line client.new)) }
    ensures cause { IsLinkCaused result (L.failures link.old) (L.failures link.new) }
    ensures later { L.failures link.old ≤ L.failures link.new }
{
    edit(alloc, client, line, local)?;
    submit(rt, alloc, link, client)
}

// Writes what a line says.
fn write_said<R: Wait, L: Link>(
    rt: &R,
    alloc: Global,
    link: &mut L,
    client: &mut Client,
    line: u64,
    bytes: &[u8],
) -> Result<(), PeerBad>
    ensures done { Done (L.traffic link.old) (L.traffic link.new) (said_line line client.old (write_line_of bytes.now)) result (λ _. Goes (Reading line client.new)) }
    ensures cause { IsLinkCaused result (L.failures link.old) (L.failures link.new) }
    ensures later { L.failures link.old ≤ L.failures link.new }
{
    match read_write_line(alloc, bytes) {
        Ok(WriteLine::Blank) => Ok(()),
        Ok(WriteLine::Edit(local)) => write_edit(rt, alloc, link, client, line, &local),
        Err(bad) => Err(bad_of_line(line, bad)),
    }
}

/// Writes the line of this number, counted from 1.
pub fn write_line<R: Wait, L: Link>(
    rt: &R,
    alloc: Global,
    link: &mut L,
    client: &mut Client,
    line: u64,
    text: ScriptLine,
) -> Result<(), PeerBad>
    ensures done { Done (L.traffic link.old) (L.traffic link.new) (lined line client.old (cut_of text)) result (λ _. Goes (Reading line client.new)) }
    ensures cause { IsLinkCaused result (L.failures link.old) (L.failures link.new) }
    ensures later { L.failures link.old ≤ L.failures link.new }
{
    match text {
        ScriptLine::Text(bytes) => write_said(rt, alloc, link, client, line, &bytes),
        ScriptLine::Long => Err(PeerBad::Script(line, Reason::Long)),
    }
}
