//! The keys of the directory's records.

ghost use Rattle.std.specs.Prelude.{◌≡◌, IfOk, codes};
ghost use Rattle.ep_dir_records.specs.Keys.{key, name_of_key, prefix, behind_slash};

use ep_outside::Text;
use ep_units::{NoMemory, Units};
use std::alloc::Global;

/// What a record is about.
#[derive(Clone, Copy, Debug, PartialEq, Eq)]
pub enum Kind {
    Group,
    GroupMapper,
    GroupPad,
    Author,
    AuthorMapper,
    Token,
    Session,
    ReadOnly,
    Pad,
}

impl Kind {
    /// What its keys begin with.
    pub fn prefix(self) -> &'static str
        ensures { result.now ≡ prefix self }
    {
        match self {
            Kind::Group => "g/",
            Kind::GroupMapper => "gm/",
            Kind::GroupPad => "gp/",
            Kind::Author => "a/",
            Kind::AuthorMapper => "am/",
            Kind::Token => "t/",
            Kind::Session => "s/",
            Kind::ReadOnly => "r/",
            Kind::Pad => "p/",
        }
    }
}

/// The key of the count of ids.
pub fn count_key(alloc: Global) -> Result<Text, NoMemory>
    ensures { IfOk result (λ text. text ≡ codes "n") }
{
    Text::from_str(alloc, "n")
}

/// The key of the record with this name.
pub fn key_text(alloc: Global, kind: Kind, name: &Units) -> Result<Text, NoMemory>
    ensures { IfOk result (λ text. text ≡ key kind name.now) }
{
    let mut text = Text::from_str(alloc, kind.prefix())?;
    text.push_str(name.to_text_lossy(alloc)?.as_str())?;
    Ok(text)
}

fn behind_slash(key: &str) -> &str
    ensures { result.now ≡ behind_slash key.now }
{
    match key.split_once('/') {
        Some((_, name)) => name,
        None => "",
    }
}

/// The name in a key.
pub fn name_of_key(alloc: Global, key: &str) -> Result<Units, NoMemory>
    ensures { IfOk result (λ name. name ≡ name_of_key key.now) }
{
    Units::from_str(alloc, behind_slash(key))
}
