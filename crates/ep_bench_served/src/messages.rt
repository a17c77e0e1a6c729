//! What is said on a link, as texts.

use ep_outside::Text;
use ep_units::{NoMemory, Units, write36};
use std::alloc::Global;

/// How a message ends that tells that an edit was committed.
const ACKNOWLEDGED: &str = "\"type\":\"ACCEPT_COMMIT\"},\"type\":\"COLLABROOM\"}";

/// The first message of somebody.
pub fn ready(alloc: Global, number: u64) -> Result<Text, NoMemory> {
    let message = format!(in alloc;
        "{{\"type\":\"CLIENT_READY\",\"padId\":\"p\",\"token\":\"t.{number}\"}}"
    )?;
    Ok(Text::from_string(message))
}

/// A number in the digits of base 36.
fn base36(alloc: Global, number: u64) -> Result<String, NoMemory> {
    let mut digits = Units::new(alloc);
    write36(number, &mut digits)?;
    digits.to_text_lossy(alloc)
}

/// A letter behind so many.
fn changeset(alloc: Global, letters: u64) -> Result<String, NoMemory> {
    let length = base36(alloc, letters.saturating_add(1))?;
    if letters == 0 {
        return Ok(format!(in alloc; "Z:{length}>1*0+1$x")?);
    }
    let kept = base36(alloc, letters)?;
    Ok(format!(in alloc; "Z:{length}>1={kept}*0+1$x")?)
}

/// An edit of a revision with as many letters as its number: one more at the end, by an author.
pub fn edit(alloc: Global, rev: u64, author: &str) -> Result<Text, NoMemory> {
    let changeset = changeset(alloc, rev)?;
    let pool = format!(in alloc;
        "{{\"nextNum\":1,\"numToAttrib\":{{\"0\":[\"author\",\"{author}\"]}}}}"
    )?;
    let message = format!(in alloc;
        "{{\"type\":\"COLLABROOM\",\"data\":{{\"type\":\"USER_CHANGES\",\"baseRev\":{rev},\"changeset\":\"{changeset}\",\"apool\":{pool}}}}}"
    )?;
    Ok(Text::from_string(message))
}

/// Who the message with the document says that one is.
pub fn author_in(text: &str) -> Option<&str> {
    let (_, rest) = text.split_once("\"userId\":\"")?;
    let (author, _) = rest.split_once('"')?;
    Some(author)
}

/// Whether a message tells that an edit of one's own was committed. Its end alone is looked at, since each message is.
pub fn is_acknowledgement(text: &str) -> bool {
    text.ends_with(ACKNOWLEDGED)
}
