//! What a request asks for.

use crate::members::{Member, number_of, pairs_of, text_of, texts_of, value_of};
use crate::refusal::Stop;
use ep_attr::Attr;
use ep_cs::First;
use serde_json::Value;
use std::alloc::Global;

/// What can be asked for.
#[derive(Clone, Copy, Debug, PartialEq, Eq)]
enum Operation {
    Read,
    Attribs,
    Invert,
    Apply,
    Fits,
    Compose,
    Follow,
    Rebase,
    Splice,
    Paint,
    Slide,
}

impl Operation {
    fn named(name: &str) -> Option<Operation> {
        match name {
            "read" => Some(Operation::Read),
            "attribs" => Some(Operation::Attribs),
            "invert" => Some(Operation::Invert),
            "apply" => Some(Operation::Apply),
            "fits" => Some(Operation::Fits),
            "compose" => Some(Operation::Compose),
            "follow" => Some(Operation::Follow),
            "rebase" => Some(Operation::Rebase),
            "splice" => Some(Operation::Splice),
            "paint" => Some(Operation::Paint),
            "slide" => Some(Operation::Slide),
            _ => None,
        }
    }
}

/// A document, as it is written.
#[derive(Clone, Copy)]
pub struct Written<'a> {
    pub text: &'a str,
    pub attribs: &'a str,
}

/// A stretch of a document.
#[derive(Clone, Copy)]
pub struct Stretch {
    pub at: u32,
    pub n: u32,
}

/// What is asked for, with changesets as they are written.
#[derive(Drop)]
pub enum Call<'a> {
    Read {
        a: &'a str,
    },
    Invert {
        doc: Written<'a>,
        a: &'a str,
    },
    Compose {
        doc: Written<'a>,
        a: &'a str,
        b: &'a str,
    },
    Follow {
        doc: Written<'a>,
        a: &'a str,
        b: &'a str,
        first: First,
    },
    Rebase {
        doc: Written<'a>,
        a: &'a str,
        through: Vec<&'a str>,
    },
    Splice {
        doc: Written<'a>,
        stretch: Stretch,
        insert: &'a str,
        pairs: Vec<Attr>,
    },
    Paint {
        doc: Written<'a>,
        stretch: Stretch,
        pairs: Vec<Attr>,
    },
    Attribs {
        doc: Written<'a>,
    },
    Apply {
        doc: Written<'a>,
        a: &'a str,
    },
    Fits {
        doc: Written<'a>,
        a: &'a str,
    },
    Slide {
        doc: Written<'a>,
        through: Vec<&'a str>,
        granularity: u32,
    },
}

fn doc_of(request: &Value) -> Result<Written<'_>, Stop> {
    Ok(Written {
        text: text_of(request, Member::Text)?,
        attribs: text_of(request, Member::Attribs)?,
    })
}

fn stretch_of(request: &Value) -> Result<Stretch, Stop> {
    Ok(Stretch {
        at: number_of(request, Member::At)?,
        n: number_of(request, Member::N)?,
    })
}

fn first_of(request: &Value) -> Result<First, Stop> {
    match text_of(request, Member::First)? {
        "a" => Ok(First::A),
        "b" => Ok(First::B),
        _ => Err(Stop::from(Member::First)),
    }
}

fn splice_of(alloc: Global, request: &Value) -> Result<Call<'_>, Stop> {
    Ok(Call::Splice {
        doc: doc_of(request)?,
        stretch: stretch_of(request)?,
        insert: text_of(request, Member::Insert)?,
        pairs: pairs_of(alloc, request)?,
    })
}

fn paint_of(alloc: Global, request: &Value) -> Result<Call<'_>, Stop> {
    Ok(Call::Paint {
        doc: doc_of(request)?,
        stretch: stretch_of(request)?,
        pairs: pairs_of(alloc, request)?,
    })
}

fn rebase_of(alloc: Global, request: &Value) -> Result<Call<'_>, Stop> {
    Ok(Call::Rebase {
        doc: doc_of(request)?,
        a: text_of(request, Member::A)?,
        through: texts_of(alloc, request, Member::Through)?,
    })
}

fn slide_of(alloc: Global, request: &Value) -> Result<Call<'_>, Stop> {
    Ok(Call::Slide {
        doc: doc_of(request)?,
        through: texts_of(alloc, request, Member::Through)?,
        granularity: number_of(request, Member::Granularity)?,
    })
}

fn follow_of(request: &Value) -> Result<Call<'_>, Stop> {
    Ok(Call::Follow {
        doc: doc_of(request)?,
        a: text_of(request, Member::A)?,
        b: text_of(request, Member::B)?,
        first: first_of(request)?,
    })
}

fn compose_of(request: &Value) -> Result<Call<'_>, Stop> {
    Ok(Call::Compose {
        doc: doc_of(request)?,
        a: text_of(request, Member::A)?,
        b: text_of(request, Member::B)?,
    })
}

/// What is asked for, or the first member that is missing or wrong: `do`, `pool`, and then those of the call in the
/// order in which `Call` has them.
pub fn call_of(alloc: Global, request: &Value) -> Result<Call<'_>, Stop> {
    let operation = Operation::named(text_of(request, Member::Do)?).ok_or(Member::Do)?;
    value_of(request, Member::Pool)?;
    match operation {
        Operation::Read => Ok(Call::Read {
            a: text_of(request, Member::A)?,
        }),
        Operation::Attribs => Ok(Call::Attribs {
            doc: doc_of(request)?,
        }),
        Operation::Invert => Ok(Call::Invert {
            doc: doc_of(request)?,
            a: text_of(request, Member::A)?,
        }),
        Operation::Apply => Ok(Call::Apply {
            doc: doc_of(request)?,
            a: text_of(request, Member::A)?,
        }),
        Operation::Fits => Ok(Call::Fits {
            doc: doc_of(request)?,
            a: text_of(request, Member::A)?,
        }),
        Operation::Compose => compose_of(request),
        Operation::Follow => follow_of(request),
        Operation::Rebase => rebase_of(alloc, request),
        Operation::Splice => splice_of(alloc, request),
        Operation::Paint => paint_of(alloc, request),
        Operation::Slide => slide_of(alloc, request),
    }
}
