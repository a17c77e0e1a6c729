//! The laws of documents, over the definitions that the calls on them cite.

ghost use Rattle.std.specs.Prelude.{◌≡◌, [], ◌∷◌};
ghost use Rattle.ep_cs.specs.Doc.{Doc};
ghost use Rattle.ep_cs.specs.Plain.{plain};
ghost use Rattle.ep_cs.specs.Edit.{apply};
ghost use Rattle.ep_cs.specs.Fits.{Fits};
ghost use Rattle.ep_cs.specs.Change.{Change};
ghost use Rattle.ep_cs.specs.NormalRuns.{IsNormal};
ghost use Rattle.ep_apply.specs.Documents.{IsDocument, insertion};

/// Nothing is a document, and so is one newline; a change that fits a document makes a document of it.
pub fn documents_stay()
    ensures empty { IsDocument [] }
    ensures newline { IsDocument (plain (10 ∷ [])) }
    ensures applied { (c : Change) (doc : Doc) → IsNormal c → Fits c doc → IsDocument doc → IsDocument (apply c.edit doc) }
{}

/// The change that inserts a document fits no units, and makes the document of them.
pub fn inserted_again()
    ensures fits { (doc : Doc) → Fits (insertion doc) [] }
    ensures document { (doc : Doc) → apply (insertion doc).edit [] ≡ doc }
{}
