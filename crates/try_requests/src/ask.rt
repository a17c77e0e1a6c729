//! Worked requests and replies of the API.

use ep_ask::{ApiBad, Call, Data, Param, make_reply, read_call};
use ep_dir_records::{Listed, SessionInfo};
use ep_outside::{Pair, Pairs, Text};
use ep_units::{NoMemory, Units};
use std::alloc::Global;
use std::test::Fail;

fn make_pair(alloc: Global, key: &str, value: &str) -> Result<Pair, NoMemory> {
    let key = Text::from_str(alloc, key)?;
    Ok(Pair {
        key,
        value: Text::from_str(alloc, value)?,
    })
}

/// Parameters, as `name=value` with an `&` between them.
fn make_pairs(alloc: Global, text: &str) -> Result<Pairs, NoMemory> {
    let mut pairs = Pairs {
        items: Vec::new(alloc),
    };
    for part in text.split('&') {
        if let Some((key, value)) = part.split_once('=') {
            pairs.items.push(make_pair(alloc, key, value)?)?;
        }
    }
    Ok(pairs)
}

/// Why a request with the key `k` is refused; none where it is read.
fn refused(alloc: Global, path: &str, text: &str) -> Result<Option<ApiBad>, NoMemory> {
    let pairs = make_pairs(alloc, text)?;
    Ok(read_call(alloc, path, pairs.as_slice(), "k").err())
}

#[test]
fn paths_and_keys(rt: HostRuntime) -> Result<(), Fail> {
    for (path, text, why) in [
        ("/api/1/checkToken", "apikey=k", None),
        ("/api/1.1/checkToken", "apikey=k&apikey=x", None),
        (
            "/api/1.2/checkToken",
            "apikey=x&apikey=k",
            Some(ApiBad::WrongKey),
        ),
        ("/api/1.2/checkToken", "apikey=kk", Some(ApiBad::WrongKey)),
        ("/api/1.2/checkToken", "", Some(ApiBad::WrongKey)),
        ("/api/1.2/nope", "", Some(ApiBad::NoFunction)),
        ("/api/1.2/", "apikey=k", Some(ApiBad::NoFunction)),
        ("/api/1.3/nope", "", Some(ApiBad::NoVersion)),
        ("/api//checkToken", "apikey=k", Some(ApiBad::NoVersion)),
        ("/api/1.2", "apikey=k", Some(ApiBad::NotFound)),
        ("/api/1.2/getText/", "apikey=k", Some(ApiBad::NotFound)),
        ("api/1.2/getText", "apikey=k", Some(ApiBad::NotFound)),
        ("/p/1.2/getText", "apikey=k", Some(ApiBad::NotFound)),
    ] {
        assert_eq!(rt; refused(rt.alloc(), path, text)?, why, "at {path} {text}");
    }
    Ok(())
}

// A path, the parameters, and why that is refused.
const REQUESTS: [(&str, &str, Option<ApiBad>); 14] = [
    (
        "/api/1/createSession",
        "apikey=k&authorID=a",
        Some(ApiBad::Missing(Param::GroupId)),
    ),
    (
        "/api/1/createSession",
        "apikey=k&groupID=g&authorID=a",
        Some(ApiBad::Missing(Param::ValidUntil)),
    ),
    (
        "/api/1/createSession",
        "apikey=k&groupID=g&authorID=a&validUntil=+7",
        Some(ApiBad::NotNumber(Param::ValidUntil)),
    ),
    (
        "/api/1/createSession",
        "apikey=k&groupID=g&authorID=a&validUntil=07",
        None,
    ),
    (
        "/api/1/createPad",
        "apikey=k&padID=g.0123456789abcdef$n",
        Some(ApiBad::OfGroup),
    ),
    (
        "/api/1/createPad",
        "apikey=k&padID=a$b",
        Some(ApiBad::NotValid(Param::PadId)),
    ),
    ("/api/1/createPad", "apikey=k&padID=a", None),
    (
        "/api/1/setText",
        "apikey=k&padID=a$b",
        Some(ApiBad::Missing(Param::Text)),
    ),
    (
        "/api/1/getText",
        "apikey=k&padID=a&rev=x",
        Some(ApiBad::NotNumber(Param::Rev)),
    ),
    (
        "/api/1/getText",
        "apikey=k&padID=a&rev=18446744073709551616",
        Some(ApiBad::NotNumber(Param::Rev)),
    ),
    (
        "/api/1/getText",
        "apikey=k&padID=a&rev=18446744073709551615",
        None,
    ),
    (
        "/api/1/setPublicStatus",
        "apikey=k&padID=a&publicStatus=True",
        Some(ApiBad::NotBoolean(Param::PublicStatus)),
    ),
    (
        "/api/1/setPublicStatus",
        "apikey=k&padID=a&publicStatus=true",
        Some(ApiBad::NoGroupPad),
    ),
    (
        "/api/1/setPublicStatus",
        "apikey=k&padID=g.0123456789abcdef$n&publicStatus=false",
        None,
    ),
];

#[test]
fn parameters(rt: HostRuntime) -> Result<(), Fail> {
    for (path, text, why) in REQUESTS {
        assert_eq!(rt; refused(rt.alloc(), path, text)?, why, "at {path} {text}");
    }
    Ok(())
}

fn is_text(alloc: Global, units: &Units, text: &str) -> Result<bool, NoMemory> {
    Ok(units.to_text_lossy(alloc)?.as_str() == text)
}

// The call makes a pad of the group `g` that is named `n` and has the text `t`.
fn makes_a_group_pad(alloc: Global, call: &Call) -> Result<bool, NoMemory> {
    match call {
        Call::CreateGroupPad { group, name, text } => Ok(
            is_text(alloc, group, "g")? && is_text(alloc, name, "n")? && is_text(alloc, text, "t")?,
        ),
        _ => Ok(false),
    }
}

#[test]
fn calls(rt: HostRuntime) -> Result<(), Fail> {
    let alloc = rt.alloc();
    let pairs = make_pairs(alloc, "apikey=k&groupID=g&padName=n&text=t&text=u")?;
    let call = read_call(alloc, "/api/1.2/createGroupPad", pairs.as_slice(), "k")?;
    assert!(rt; makes_a_group_pad(alloc, &call)?);
    Ok(())
}

fn is_reply(
    alloc: Global,
    outcome: &Result<Data, ApiBad>,
    status: u16,
    body: &str,
) -> Result<bool, NoMemory> {
    let reply = make_reply(alloc, outcome)?;
    Ok(reply.status == status && reply.body.as_str() == body)
}

#[test]
fn refusals(rt: HostRuntime) -> Result<(), Fail> {
    for (why, status, body) in [
        (
            ApiBad::Missing(Param::PadId),
            200,
            "{\"code\":1,\"data\":null,\"message\":\"padID is missing\"}",
        ),
        (
            ApiBad::JournalFull,
            200,
            "{\"code\":2,\"data\":null,\"message\":\"journal is full\"}",
        ),
        (
            ApiBad::NotFound,
            404,
            "{\"code\":1,\"data\":null,\"message\":\"Not Found\"}",
        ),
    ] {
        assert!(rt; is_reply(rt.alloc(), &Err(why), status, body)?, "at {body}");
    }
    Ok(())
}

/// What a function answers, in plain data.
#[derive(Clone, Copy)]
enum Answer<'a> {
    Nothing,
    Text(&'a str),
    /// Sessions of these ids, of one group and author.
    Infos(&'a [&'a str]),
    Public(bool),
}

fn make_info(alloc: Global, id: &str) -> Result<SessionInfo, NoMemory> {
    let id = Units::from_str(alloc, id)?;
    let group = Units::from_str(alloc, "g.x")?;
    Ok(SessionInfo {
        id,
        group,
        author: Units::from_str(alloc, "a.x")?,
        valid_until: 7,
    })
}

fn make_infos(alloc: Global, ids: &[&str]) -> Result<Listed<SessionInfo>, NoMemory> {
    let mut infos = Listed::new(alloc);
    for id in ids {
        infos.push(make_info(alloc, id)?)?;
    }
    Ok(infos)
}

fn make_data(alloc: Global, answer: Answer<'_>) -> Result<Data, NoMemory> {
    Ok(match answer {
        Answer::Nothing => Data::Nothing,
        Answer::Text(text) => Data::Text(Units::from_str(alloc, text)?),
        Answer::Infos(ids) => Data::Infos(make_infos(alloc, ids)?),
        Answer::Public(is_public) => Data::Public(is_public),
    })
}

fn is_answer(alloc: Global, answer: Answer<'_>, body: &str) -> Result<bool, NoMemory> {
    let outcome = Ok(make_data(alloc, answer)?);
    is_reply(alloc, &outcome, 200, body)
}

#[test]
fn answers(rt: HostRuntime) -> Result<(), Fail> {
    for (answer, body) in [
        (
            Answer::Nothing,
            "{\"code\":0,\"data\":null,\"message\":\"ok\"}",
        ),
        (
            Answer::Text("a\"\n"),
            "{\"code\":0,\"data\":{\"text\":\"a\\\"\\n\"},\"message\":\"ok\"}",
        ),
        (
            Answer::Infos(&["s.b", "s.a"]),
            "{\"code\":0,\"data\":{\"s.a\":{\"authorID\":\"a.x\",\"groupID\":\"g.x\",\"validUntil\":7},\"s.b\":{\"authorID\":\"a.x\",\"groupID\":\"g.x\",\"validUntil\":7}},\"message\":\"ok\"}",
        ),
        (
            Answer::Public(false),
            "{\"code\":0,\"data\":{\"publicStatus\":false},\"message\":\"ok\"}",
        ),
    ] {
        assert!(rt; is_answer(rt.alloc(), answer, body)?, "at {body}");
    }
    Ok(())
}
