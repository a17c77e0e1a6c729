//! Whether two documents are the same.

ghost use Rattle.std.specs.Prelude.{◌≡◌, ◌<◌, ◌^◌, ◌++◌, ◌&&◌, List, length};
ghost use Rattle.ep_cs.specs.Doc.{Cell};
ghost use Rattle.ep_cs.specs.Runs.{cells};
ghost use Rattle.ep_make.specs.Same.{doc_eq};

use ep_apply::{Doc, Reading, Stretch};

/// Whether what is left begins with this stretch, which is then passed.
fn passes(rest: &mut Reading<'_>, stretch: &Stretch<'_>) -> bool
    requires { length stretch.now.text.now < 2 ^ 32 }
    ensures { (behind : List Cell) → doc_eq (cells stretch.now.attrs.now stretch.now.text.now ++ behind) rest.old ≡ (result && doc_eq behind rest.new) }
{
    let mut left = stretch.text;
    'pieces: while !left.is_empty() {
        let Some(piece) = rest.take(left.len() as u32) else {
            return false;
        };
        let (front, later) = left.split_at(piece.text.len());
        if front != piece.text || stretch.attrs != piece.attrs {
            return false;
        }
        left = later;
    }
    true
}

/// Whether they have the same units with the same attributes.
pub(crate) fn is_same(doc: &Doc, other: &Doc) -> bool
    ensures { result ≡ doc_eq doc.now other.now }
{
    let mut rest = doc.reading();
    let mut others = other.reading();
    'stretches: while let Some(stretch) = rest.take(u32::MAX) {
        if !passes(&mut others, &stretch) {
            return false;
        }
    }
    others.take(1).is_none()
}
