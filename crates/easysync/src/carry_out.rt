//! What is asked for, done.

use crate::calc::{all_fit, applied, composed, followed, rebased};
use crate::call::{Call, Stretch, Written};
use crate::members::Member;
use crate::refusal::Stop;
use crate::reply::{Reply, change_reply, doc_reply, fits_reply, slides_reply};
use ep_apply::{Doc, fits};
use ep_attr::{Attr, AttrMap};
use ep_cs::{Change, First, MOST_UNITS};
use ep_csread::{read, read_attribs};
use ep_invert::{invert, paint, splice};
use ep_pool::Pool;
use ep_slider::slide;
use ep_units::Units;
use std::alloc::Global;

fn change(alloc: Global, text: &str, pool: &Pool) -> Result<Change, Stop> {
    let text = Units::from_str(alloc, text)?;
    Ok(read(alloc, &text, pool)?)
}

fn changes(alloc: Global, texts: &[&str], pool: &Pool) -> Result<Vec<Change>, Stop> {
    let mut changes = Vec::with_capacity(alloc, texts.len())?;
    for text in texts {
        changes.push(change(alloc, text, pool)?)?;
    }
    Ok(changes)
}

/// A document, as a change of an empty one.
fn insertion(alloc: Global, written: &Written<'_>, pool: &Pool) -> Result<Change, Stop> {
    let text = Units::from_str(alloc, written.text)?;
    let attribs = Units::from_str(alloc, written.attribs)?;
    Ok(read_attribs(alloc, &text, &attribs, pool)?)
}

fn document(alloc: Global, written: &Written<'_>, pool: &Pool) -> Result<Doc, Stop> {
    let insertion = insertion(alloc, written, pool)?;
    let empty = Doc::empty(alloc);
    Ok(applied(alloc, &empty, &insertion)?)
}

fn text_with_attribs(alloc: Global, doc: &Written<'_>, pool: &Pool) -> Result<Reply, Stop> {
    let doc = document(alloc, doc, pool)?;
    Ok(doc_reply(alloc, &doc)?)
}

fn application(alloc: Global, doc: &Written<'_>, a: &str, pool: &Pool) -> Result<Reply, Stop> {
    let doc = document(alloc, doc, pool)?;
    let a = change(alloc, a, pool)?;
    let after = applied(alloc, &doc, &a)?;
    Ok(doc_reply(alloc, &after)?)
}

fn fitting(alloc: Global, doc: &Written<'_>, a: &str, pool: &Pool) -> Result<Reply, Stop> {
    let doc = document(alloc, doc, pool)?;
    let a = change(alloc, a, pool)?;
    fits(&doc, &a)?;
    Ok(fits_reply(alloc)?)
}

fn inverse(alloc: Global, doc: &Written<'_>, a: &str, pool: &Pool) -> Result<Change, Stop> {
    let doc = document(alloc, doc, pool)?;
    let a = change(alloc, a, pool)?;
    fits(&doc, &a)?;
    Ok(invert(alloc, &a, &doc)?)
}

fn composition(
    alloc: Global,
    doc: &Written<'_>,
    a: &str,
    b: &str,
    pool: &Pool,
) -> Result<Change, Stop> {
    let doc = document(alloc, doc, pool)?;
    let a = change(alloc, a, pool)?;
    let b = change(alloc, b, pool)?;
    Ok(composed(alloc, &doc, &a, &b)?)
}

fn follower(
    alloc: Global,
    doc: &Written<'_>,
    a: &str,
    b: &str,
    first: First,
    pool: &Pool,
) -> Result<Change, Stop> {
    let doc = document(alloc, doc, pool)?;
    let a = change(alloc, a, pool)?;
    let b = change(alloc, b, pool)?;
    Ok(followed(alloc, &doc, &a, &b, first)?)
}

fn rebasing(
    alloc: Global,
    doc: &Written<'_>,
    a: &str,
    through: &[&str],
    pool: &Pool,
) -> Result<Change, Stop> {
    let doc = document(alloc, doc, pool)?;
    let a = change(alloc, a, pool)?;
    let through = changes(alloc, through, pool)?;
    Ok(rebased(alloc, &doc, &a, &through)?)
}

/// A text that would make the document longer than 4,294,967,295 units is a wrong member.
fn spliced(
    alloc: Global,
    doc: &Doc,
    stretch: Stretch,
    insert: &str,
    pairs: &[Attr],
) -> Result<Change, Stop> {
    let text = Units::from_str(alloc, insert)?;
    if text.len() > (MOST_UNITS - doc.len()) as usize {
        return Err(Stop::from(Member::Insert));
    }
    let attrs = AttrMap::read(alloc, pairs)?;
    Ok(splice(alloc, doc, stretch.at, stretch.n, &text, &attrs)?)
}

fn splicing(
    alloc: Global,
    doc: &Written<'_>,
    stretch: Stretch,
    insert: &str,
    pairs: &[Attr],
    pool: &Pool,
) -> Result<Change, Stop> {
    let doc = document(alloc, doc, pool)?;
    spliced(alloc, &doc, stretch, insert, pairs)
}

fn painting(
    alloc: Global,
    doc: &Written<'_>,
    stretch: Stretch,
    pairs: &[Attr],
    pool: &Pool,
) -> Result<Change, Stop> {
    let doc = document(alloc, doc, pool)?;
    let attrs = AttrMap::read(alloc, pairs)?;
    Ok(paint(alloc, &doc, stretch.at, stretch.n, &attrs)?)
}

fn sliding(
    alloc: Global,
    doc: &Written<'_>,
    through: &[&str],
    granularity: u32,
    pool: &Pool,
) -> Result<Reply, Stop> {
    let doc = document(alloc, doc, pool)?;
    let through = changes(alloc, through, pool)?;
    all_fit(alloc, &doc, &through)?;
    let slides = slide(alloc, &doc, &through, granularity)?;
    Ok(slides_reply(alloc, slides)?)
}

/// The reply that tells a change, if one was made.
fn told(alloc: Global, made: Result<Change, Stop>) -> Result<Reply, Stop> {
    let change = made?;
    Ok(change_reply(alloc, &change)?)
}

/// The reply to a call. Texts are read in the order in which the call has them, and a change that doesn't fit is refused
/// before the call is made.
pub fn carry_out(alloc: Global, call: &Call<'_>, pool: &Pool) -> Result<Reply, Stop> {
    match call {
        Call::Attribs { doc } => text_with_attribs(alloc, doc, pool),
        Call::Apply { doc, a } => application(alloc, doc, a, pool),
        Call::Fits { doc, a } => fitting(alloc, doc, a, pool),
        Call::Slide {
            doc,
            through,
            granularity,
        } => sliding(alloc, doc, through, *granularity, pool),
        Call::Read { a } => told(alloc, change(alloc, a, pool)),
        Call::Invert { doc, a } => told(alloc, inverse(alloc, doc, a, pool)),
        Call::Compose { doc, a, b } => told(alloc, composition(alloc, doc, a, b, pool)),
        Call::Follow { doc, a, b, first } => told(alloc, follower(alloc, doc, a, b, *first, pool)),
        Call::Rebase { doc, a, through } => told(alloc, rebasing(alloc, doc, a, through, pool)),
        Call::Splice {
            doc,
            stretch,
            insert,
            pairs,
        } => told(alloc, splicing(alloc, doc, *stretch, insert, pairs, pool)),
        Call::Paint {
            doc,
            stretch,
            pairs,
        } => told(alloc, painting(alloc, doc, *stretch, pairs, pool)),
    }
}
