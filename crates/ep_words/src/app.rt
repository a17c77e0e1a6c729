//! The command that `clap` takes words apart by.

ghost use Rattle.std.specs.Prelude.{◌≡◌, false, codes, [], ◌∷◌, IfOk};
ghost use Rattle.clap.specs.Words.{App, rule_of, with_subcommand};
ghost use Rattle.ep_words.specs.App.{IsMade, leaf, may_have, padd, top, wanted};

use clap::{Arg, ArgAction, Command};
use std::alloc::{AllocError, Global};

// A word that has to be there.
fn wanted<'a>(alloc: Global, id: &'a str) -> Arg<'a>
    ensures rule { rule_of result ≡ wanted id.entry.now }
    ensures local { result.global ≡ false }
{
    Arg::new(alloc, id).required(true).action(ArgAction::Set)
}

fn play<'a>(alloc: Global) -> Result<Command<'a>, AllocError>
    ensures { IfOk result (λ c. IsMade c (may_have (codes "play") (codes "name"))) }
{
    let name = Arg::new(alloc, "name").action(ArgAction::Set);
    Command::new(alloc, "play").arg(name)
}

fn serve<'a>(alloc: Global) -> Result<Command<'a>, AllocError>
    ensures { IfOk result (λ c. IsMade c (leaf (codes "serve") (codes "pads" ∷ codes "api" ∷ codes "dir" ∷ codes "key" ∷ []))) }
{
    Command::new(alloc, "serve")
        .arg(wanted(alloc, "pads"))?
        .arg(wanted(alloc, "api"))?
        .arg(wanted(alloc, "dir"))?
        .arg(wanted(alloc, "key"))
}

fn write<'a>(alloc: Global) -> Result<Command<'a>, AllocError>
    ensures { IfOk result (λ c. IsMade c (leaf (codes "write") (codes "addr" ∷ codes "pad" ∷ codes "token" ∷ []))) }
{
    Command::new(alloc, "write")
        .arg(wanted(alloc, "addr"))?
        .arg(wanted(alloc, "pad"))?
        .arg(wanted(alloc, "token"))
}

fn verify<'a>(alloc: Global) -> Result<Command<'a>, AllocError>
    ensures { IfOk result (λ c. IsMade c (leaf (codes "verify") (codes "dir" ∷ codes "workers" ∷ []))) }
{
    Command::new(alloc, "verify")
        .arg(wanted(alloc, "dir"))?
        .arg(wanted(alloc, "workers"))
}

fn make<'a>(alloc: Global) -> Result<Command<'a>, AllocError>
    ensures { IfOk result (λ c. IsMade c (leaf (codes "make") (codes "number" ∷ codes "clients" ∷ codes "edits" ∷ []))) }
{
    Command::new(alloc, "make")
        .arg(wanted(alloc, "number"))?
        .arg(wanted(alloc, "clients"))?
        .arg(wanted(alloc, "edits"))
}

// The command above the others, which takes no word of its own.
fn top<'a>(alloc: Global) -> Command<'a>
    ensures { IsMade result top }
{
    Command::new(alloc, "padd")
        .no_binary_name(true)
        .disable_help_flag(true)
        .disable_help_subcommand(true)
        .disable_version_flag(true)
        .subcommand_required(true)
}

fn with_leaf<'a>(above: Command<'a>, leaf: Command<'a>) -> Result<Command<'a>, AllocError>
    ensures { (a b : App) → IsMade above.entry a → IsMade leaf.entry b → IfOk result (λ c. IsMade c (with_subcommand a b.top)) }
{
    above.subcommand(leaf)
}

/// The command of the words, with a subcommand for each first word.
pub fn padd<'a>(alloc: Global) -> Result<Command<'a>, AllocError>
    ensures { IfOk result (λ c. IsMade c padd) }
{
    let first = with_leaf(top(alloc), play(alloc)?)?;
    let second = with_leaf(first, serve(alloc)?)?;
    let third = with_leaf(second, write(alloc)?)?;
    let fourth = with_leaf(third, verify(alloc)?)?;
    with_leaf(fourth, make(alloc)?)
}
