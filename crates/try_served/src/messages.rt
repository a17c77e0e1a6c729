//! What a server tells a writer.

use ep_link::Coming;
use ep_outside::Text;
use ep_units::NoMemory;
use std::alloc::Global;
use std::collections::VecDeque;

pub const EMPTY: &str =
    r#"{"data":{"birth":1,"collab_client_vars":{"apool":{"nextNum":0,"numToAttrib":{}},"initialAttributedText":{"attribs":"|1+1","text":"\n"},"rev":0,"time":5},"padId":"p","readonly":false,"session":"1.1","userId":"a.1"},"type":"CLIENT_VARS"}"#;

pub const COMMIT_1: &str =
    r#"{"data":{"newRev":1,"session":"1.1","type":"ACCEPT_COMMIT"},"type":"COLLABROOM"}"#;

pub const DENY: &str = r#"{"accessStatus":"deny"}"#;

/// These messages are to come.
pub fn coming(alloc: Global, texts: &[&str]) -> Result<VecDeque<Coming>, NoMemory> {
    let mut coming = VecDeque::new(alloc);
    for text in texts {
        coming.push_back(Coming::Message(Text::from_str(alloc, text)?))?;
    }
    Ok(coming)
}
