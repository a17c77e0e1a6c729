//! The fixed words of lines of output.

ghost use Rattle.std.specs.Prelude.{◌≡◌};
ghost use Rattle.ep_print.specs.Printed.{verb_out, state_out, ended_out};

use ep_event::{Ended, State, Verb};

pub(crate) fn verb_word(verb: Verb) -> &'static str
    ensures { result.now ≡ verb_out verb }
{
    match verb {
        Verb::Create => "create",
        Verb::Set => "set",
        Verb::Drop => "drop",
        Verb::Login => "login",
        Verb::Guest => "guest",
        Verb::Reader => "reader",
        Verb::Insert => "insert",
        Verb::Delete => "delete",
        Verb::Format => "format",
        Verb::Undo => "undo",
        Verb::Redo => "redo",
        Verb::Inject => "inject",
        Verb::Submit => "submit",
        Verb::Take => "take",
        Verb::Late => "late",
        Verb::Push => "push",
        Verb::Hear => "hear",
        Verb::Lose => "lose",
        Verb::Resume => "resume",
        Verb::Crash => "crash",
        Verb::Head => "head",
        Verb::Text => "text",
        Verb::Marks => "marks",
    }
}

pub(crate) fn state_word(state: State) -> &'static str
    ensures { result.now ≡ state_out state }
{
    match state {
        State::Clean => "clean",
        State::Sent => "sent",
        State::Local => "local",
        State::Both => "both",
    }
}

pub(crate) fn ended_word(word: Ended) -> &'static str
    ensures { result.now ≡ ended_out word }
{
    match word {
        Ended::BadChangeset => "badChangeset",
        Ended::Full => "full",
        Ended::UserDup => "userdup",
        Ended::Deleted => "deleted",
    }
}
