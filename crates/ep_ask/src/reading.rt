//! Requests, read to calls.

ghost use Rattle.std.specs.Prelude.{◌≡◌, ◌≢◌, Ok, Err, IfOk, IfErr};
ghost use Rattle.ep_ask.specs.Calls.{HasWholeText, call_of, needed_text, only_pad};
ghost use Rattle.ep_ask.specs.Requests.{call_in, function_in};

use crate::bad::ApiBad;
use crate::call::Call;
use crate::function::Function;
use crate::key::is_key;
use crate::param::Param;
use crate::parameters::{
    boolean, grouped, lone_pad, needed, number, number_if, pad, text_if, text_or, value_of,
};
use crate::path::{is_version, parts_in};
use ep_outside::Pair;
use ep_units::{PadId, Units};
use std::alloc::Global;

/// The units of a parameter that must be there.
fn text(alloc: Global, param: Param, pairs: &[Pair]) -> Result<Units, ApiBad>
    ensures ok { IfOk result (λ t. needed_text param pairs.now ≡ Ok t) }
    ensures err { IfErr result (λ e. e ≢ ApiBad.NoMemory → needed_text param pairs.now ≡ Err e) }
{
    let value = needed(param, pairs)?;
    Ok(Units::from_str(alloc, value)?)
}

/// The pad of a function that takes nothing more.
fn only_pad(alloc: Global, pairs: &[Pair]) -> Result<PadId, ApiBad>
    ensures ok { IfOk result (λ id. only_pad pairs.now ≡ Ok id) }
    ensures err { IfErr result (λ e. e ≢ ApiBad.NoMemory → only_pad pairs.now ≡ Err e) }
{
    pad(alloc, needed(Param::PadId, pairs)?)
}

fn create_group_pad(alloc: Global, pairs: &[Pair]) -> Result<Call, ApiBad>
    ensures ok { IfOk result (λ c. call_of Function.CreateGroupPad pairs.now ≡ Ok c) }
    ensures err { IfErr result (λ e. e ≢ ApiBad.NoMemory → call_of Function.CreateGroupPad pairs.now ≡ Err e) }
    ensures whole { IfOk result HasWholeText }
{
    let group = needed(Param::GroupId, pairs)?;
    let name = needed(Param::PadName, pairs)?;
    Ok(Call::CreateGroupPad {
        group: Units::from_str(alloc, group)?,
        name: Units::from_str(alloc, name)?,
        text: text_or(alloc, Param::Text, pairs)?,
    })
}

fn create_author(alloc: Global, pairs: &[Pair]) -> Result<Call, ApiBad>
    ensures ok { IfOk result (λ c. call_of Function.CreateAuthor pairs.now ≡ Ok c) }
    ensures err { IfErr result (λ e. e ≢ ApiBad.NoMemory → call_of Function.CreateAuthor pairs.now ≡ Err e) }
    ensures whole { IfOk result HasWholeText }
{
    let name = match text_if(alloc, Param::Name, pairs)? {
        Some(name) => name,
        None => Units::new(alloc),
    };
    Ok(Call::CreateAuthor { name })
}

fn create_mapped_author(alloc: Global, pairs: &[Pair]) -> Result<Call, ApiBad>
    ensures ok { IfOk result (λ c. call_of Function.CreateAuthorIfNotExistsFor pairs.now ≡ Ok c) }
    ensures err { IfErr result (λ e. e ≢ ApiBad.NoMemory → call_of Function.CreateAuthorIfNotExistsFor pairs.now ≡ Err e) }
    ensures whole { IfOk result HasWholeText }
{
    let mapper = needed(Param::AuthorMapper, pairs)?;
    let name = text_if(alloc, Param::Name, pairs)?;
    Ok(Call::CreateAuthorIfNotExistsFor {
        mapper: Units::from_str(alloc, mapper)?,
        name,
    })
}

fn create_session(alloc: Global, pairs: &[Pair]) -> Result<Call, ApiBad>
    ensures ok { IfOk result (λ c. call_of Function.CreateSession pairs.now ≡ Ok c) }
    ensures err { IfErr result (λ e. e ≢ ApiBad.NoMemory → call_of Function.CreateSession pairs.now ≡ Err e) }
    ensures whole { IfOk result HasWholeText }
{
    let group = needed(Param::GroupId, pairs)?;
    let author = needed(Param::AuthorId, pairs)?;
    let until = needed(Param::ValidUntil, pairs)?;
    let valid_until = number(Param::ValidUntil, until)?;
    Ok(Call::CreateSession {
        group: Units::from_str(alloc, group)?,
        author: Units::from_str(alloc, author)?,
        valid_until,
    })
}

fn create_pad(alloc: Global, pairs: &[Pair]) -> Result<Call, ApiBad>
    ensures ok { IfOk result (λ c. call_of Function.CreatePad pairs.now ≡ Ok c) }
    ensures err { IfErr result (λ e. e ≢ ApiBad.NoMemory → call_of Function.CreatePad pairs.now ≡ Err e) }
    ensures whole { IfOk result HasWholeText }
{
    let id = needed(Param::PadId, pairs)?;
    Ok(Call::CreatePad {
        pad: lone_pad(alloc, id)?,
        text: text_or(alloc, Param::Text, pairs)?,
    })
}

fn get_text(alloc: Global, pairs: &[Pair]) -> Result<Call, ApiBad>
    ensures ok { IfOk result (λ c. call_of Function.GetText pairs.now ≡ Ok c) }
    ensures err { IfErr result (λ e. e ≢ ApiBad.NoMemory → call_of Function.GetText pairs.now ≡ Err e) }
    ensures whole { IfOk result HasWholeText }
{
    let id = needed(Param::PadId, pairs)?;
    Ok(Call::GetText {
        pad: pad(alloc, id)?,
        rev: number_if(Param::Rev, pairs)?,
    })
}

fn set_text(alloc: Global, pairs: &[Pair]) -> Result<Call, ApiBad>
    ensures ok { IfOk result (λ c. call_of Function.SetText pairs.now ≡ Ok c) }
    ensures err { IfErr result (λ e. e ≢ ApiBad.NoMemory → call_of Function.SetText pairs.now ≡ Err e) }
    ensures whole { IfOk result HasWholeText }
{
    let id = needed(Param::PadId, pairs)?;
    let text = needed(Param::Text, pairs)?;
    Ok(Call::SetText {
        pad: pad(alloc, id)?,
        text: Units::from_str(alloc, text)?,
    })
}

fn set_public_status(alloc: Global, pairs: &[Pair]) -> Result<Call, ApiBad>
    ensures ok { IfOk result (λ c. call_of Function.SetPublicStatus pairs.now ≡ Ok c) }
    ensures err { IfErr result (λ e. e ≢ ApiBad.NoMemory → call_of Function.SetPublicStatus pairs.now ≡ Err e) }
    ensures whole { IfOk result HasWholeText }
{
    let id = needed(Param::PadId, pairs)?;
    let status = needed(Param::PublicStatus, pairs)?;
    let id = pad(alloc, id)?;
    let on = boolean(Param::PublicStatus, status)?;
    Ok(Call::SetPublicStatus {
        pad: grouped(id)?,
        on,
    })
}

/// What a function is to do.
fn call_of(alloc: Global, function: Function, pairs: &[Pair]) -> Result<Call, ApiBad>
    ensures ok { IfOk result (λ c. call_of function pairs.now ≡ Ok c) }
    ensures err { IfErr result (λ e. e ≢ ApiBad.NoMemory → call_of function pairs.now ≡ Err e) }
    ensures whole { IfOk result HasWholeText }
{
    Ok(match function {
        Function::CreateGroup => Call::CreateGroup,
        Function::CreateGroupIfNotExistsFor => Call::CreateGroupIfNotExistsFor {
            mapper: text(alloc, Param::GroupMapper, pairs)?,
        },
        Function::DeleteGroup => Call::DeleteGroup {
            group: text(alloc, Param::GroupId, pairs)?,
        },
        Function::ListPads => Call::ListPads {
            group: text(alloc, Param::GroupId, pairs)?,
        },
        Function::ListAllGroups => Call::ListAllGroups,
        Function::CreateGroupPad => return create_group_pad(alloc, pairs),
        Function::CreateAuthor => return create_author(alloc, pairs),
        Function::CreateAuthorIfNotExistsFor => return create_mapped_author(alloc, pairs),
        Function::GetAuthorName => Call::GetAuthorName {
            author: text(alloc, Param::AuthorId, pairs)?,
        },
        Function::CreateSession => return create_session(alloc, pairs),
        Function::DeleteSession => Call::DeleteSession {
            session: text(alloc, Param::SessionId, pairs)?,
        },
        Function::GetSessionInfo => Call::GetSessionInfo {
            session: text(alloc, Param::SessionId, pairs)?,
        },
        Function::ListSessionsOfGroup => Call::ListSessionsOfGroup {
            group: text(alloc, Param::GroupId, pairs)?,
        },
        Function::ListSessionsOfAuthor => Call::ListSessionsOfAuthor {
            author: text(alloc, Param::AuthorId, pairs)?,
        },
        Function::CreatePad => return create_pad(alloc, pairs),
        Function::DeletePad => Call::DeletePad {
            pad: only_pad(alloc, pairs)?,
        },
        Function::GetText => return get_text(alloc, pairs),
        Function::SetText => return set_text(alloc, pairs),
        Function::GetRevisionsCount => Call::GetRevisionsCount {
            pad: only_pad(alloc, pairs)?,
        },
        Function::GetLastEdited => Call::GetLastEdited {
            pad: only_pad(alloc, pairs)?,
        },
        Function::PadUsersCount => Call::PadUsersCount {
            pad: only_pad(alloc, pairs)?,
        },
        Function::GetReadOnlyId => Call::GetReadOnlyId {
            pad: only_pad(alloc, pairs)?,
        },
        Function::SetPublicStatus => return set_public_status(alloc, pairs),
        Function::GetPublicStatus => Call::GetPublicStatus {
            pad: grouped(only_pad(alloc, pairs)?)?,
        },
        Function::CheckToken => Call::CheckToken,
    })
}

/// The function of a request that has the key.
fn function_in(path: &str, pairs: &[Pair], key: &str) -> Result<Function, ApiBad>
    ensures { result ≡ function_in path.now pairs.now key.now }
{
    let (version, name) = match parts_in(path) {
        Ok(parts) => parts,
        Err(why) => return Err(why),
    };
    if !is_version(version) {
        return Err(ApiBad::NoVersion);
    }
    let Some(function) = Function::named(name) else {
        return Err(ApiBad::NoFunction);
    };
    if is_key(key, value_of(Param::ApiKey, pairs)) {
        Ok(function)
    } else {
        Err(ApiBad::WrongKey)
    }
}

/// The call that a request asks for, by its path and its parameters.
pub fn read_call(alloc: Global, path: &str, pairs: &[Pair], key: &str) -> Result<Call, ApiBad>
    ensures ok { IfOk result (λ call. call_in path.now pairs.now key.now ≡ Ok call) }
    ensures err { IfErr result (λ why. why ≢ ApiBad.NoMemory → call_in path.now pairs.now key.now ≡ Err why) }
    ensures whole { IfOk result HasWholeText }
{
    let function = function_in(path, pairs, key)?;
    call_of(alloc, function, pairs)
}
