//! A client's edits of what it sees, taken back and made again.

ghost use Rattle.std.specs.Prelude.{◌≡◌, true, option_map, IfOk, IfSome, OnOk};
ghost use Rattle.ep_cs.specs.EditFits.{is_edit};
ghost use Rattle.ep_cs.specs.Fits.{Fits};
ghost use Rattle.ep_local.specs.Local.{is_local_text};
ghost use Rattle.ep_members.specs.Undoing.{EditsView, Remade, remade, remade_verb, shows_made_again, to_make};

use ep_cs::Change;
use ep_event::{Local, Shown, Verb};
use ep_invert::SpliceBad;
use ep_local::local_change;
use ep_undo::UndoClient;
use ep_units::{NoMemory, Units};
use std::alloc::Global;

/// What a user asks for of the edits that were made.
#[derive(Clone, Copy, Debug, PartialEq, Eq)]
pub enum Remake {
    /// The last one that isn't taken back is taken back.
    Undo,
    /// The last one that was taken back is made again.
    Redo,
}

impl Remake {
    fn verb(self) -> Verb
        ensures { result ≡ remade_verb self }
    {
        match self {
            Remake::Undo => Verb::Undo,
            Remake::Redo => Verb::Redo,
        }
    }

    /// The change by which a client took an edit back, or made one again, if there was one.
    fn change(self, alloc: Global, client: &mut UndoClient) -> Result<Option<Change>, NoMemory>
        ensures made { OnOk result (client.new ≡ remade self client.old) }
        ensures told { IfOk result (λ o. option_map (λ c. c.edit) o ≡ to_make self client.old) }
        ensures fits { IfOk result (λ o. IfSome o (λ c. Fits c client.old.client.view)) }
    {
        match self {
            Remake::Undo => client.undo(alloc),
            Remake::Redo => client.redo(alloc),
        }
    }

    /// A client takes an edit back, or makes one again, if there is one, and that is shown.
    pub(crate) fn make(
        self,
        alloc: Global,
        client: &mut UndoClient,
        name: Units,
    ) -> Result<Shown, NoMemory>
        ensures { IfOk result (Remade self name client.old client.new) }
    {
        let made = self.change(alloc, client)?;
        Ok(show_made(self.verb(), name, made))
    }
}

/// A client makes a local edit of what it sees, which it can take back, or is told why that is none. By the rules a client
/// refuses no change that fits its view; if it did, that would be answered as want of memory.
pub(crate) fn edit_view(
    alloc: Global,
    client: &mut UndoClient,
    edit: &Local,
) -> Result<Option<SpliceBad>, NoMemory>
    requires { is_local_text edit.now ≡ true }
    ensures { IfOk result (EditsView edit.now client.old client.new) }
{
    match local_change(alloc, client.client().view(), edit) {
        Ok(change) => {
            // It is one that an edit spells.
            let _normal = change.ops();
            match client.edit(alloc, &change) {
                Ok(()) => Ok(None),
                Err(_) => Err(NoMemory),
            }
        }
        Err(SpliceBad::NoMemory) => Err(NoMemory),
        Err(SpliceBad::Place) => Ok(Some(SpliceBad::Place)),
        Err(SpliceBad::CutsPair(at)) => Ok(Some(SpliceBad::CutsPair(at))),
    }
}

/// What is shown of a change that was made, or that there was none; a change is always one that an edit spells.
fn show_made(verb: Verb, name: Units, made: Option<Change>) -> Shown
    ensures shown { result ≡ shows_made_again verb name made }
    ensures normal { IfSome made (λ c. is_edit c.edit ≡ true) }
{
    match made {
        None => Shown::Nothing { verb, name },
        Some(change) => {
            let _normal = change.ops();
            Shown::Remade { verb, name, change }
        }
    }
}
