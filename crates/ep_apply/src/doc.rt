//! Documents.

ghost use Rattle.std.specs.Prelude.{◌≡◌, ◌<◌, ◌^◌, ◌∷◌, [], length, IfOk};
ghost use Rattle.ep_cs.specs.Doc.{text_of};
ghost use Rattle.ep_cs.specs.Lines.{is_whole_lines};
ghost use Rattle.ep_cs.specs.Plain.{plain};
ghost use Rattle.ep_apply.specs.Documents.{IsDocument, insertion};

use ep_attr::AttrMap;
use ep_blocks::{Body, Passing, Reading, Writer};
use ep_cs::{Builder, Change};
use ep_units::{NoMemory, Units};
use std::alloc::Global;
use std::marker::Model;

/// Attributed text: no half of a pair stands alone, the halves of a pair have equal maps, and no map has an empty value.
///
/// It stands in pages of at most 12 groups of at most 8 blocks of at most 512 UTF-16 units; one that is short stands in groups
/// or blocks. Documents share pages, groups and blocks.
pub struct Doc {
    pub(crate) body: Body,
    pub(crate) units: u32,
}

impl Drop for Doc {
    fn drop(self) {
        let Doc { body: _, units: _ } = self;
    }
}

impl Model for Doc {
    ghost use Rattle.std.specs.Prelude.{List};
    ghost use Rattle.std.specs.Coded.{coded_list};
    ghost use Rattle.ep_cs.specs.Doc.{Cell};
    ghost use Rattle.ep_cs.specs.Codes.{coded_cell};

    ghost Value = { List Cell };

    ghost coded = { coded_list coded_cell };

    ghost use Rattle.ep_apply.specs.Inside.{doc_of, IsDoc};

    ghost view = { doc_of };

    ghost invariant = { IsDoc };
}

impl Doc {
    /// The document without units.
    pub fn empty(alloc: Global) -> Doc
        ensures { result ≡ [] }
    {
        Doc {
            body: Body::empty(alloc),
            units: 0,
        }
    }

    /// One newline without attributes: a pad before its first revision.
    pub fn newline(alloc: Global) -> Result<Doc, NoMemory>
        ensures { IfOk result (λ d. d ≡ plain (10 ∷ [])) }
    {
        let mut out = Writer::with_room(alloc, 0)?;
        out.push(&[10], &AttrMap::none(alloc))?;
        Ok(Doc {
            body: out.finish()?,
            units: 1,
        })
    }

    /// How many UTF-16 units it has.
    pub fn len(&self) -> u32
        ensures { result ≡ length self.now }
    {
        self.units
    }

    /// Whether its text is whole lines: it has no units, or ends in a newline.
    pub fn is_whole_lines(&self) -> bool
        ensures { result ≡ is_whole_lines (text_of self.now) }
    {
        self.body.is_whole_lines()
    }

    /// Its units in one list, which is made.
    pub fn text(&self, alloc: Global) -> Result<Units, NoMemory>
        ensures { IfOk result (λ text. text ≡ text_of self.now) }
    {
        self.body.text(alloc, self.units as usize)
    }

    /// The same document again, which shares all its groups.
    pub fn copy(&self, alloc: Global) -> Result<Doc, NoMemory>
        ensures { IfOk result (λ d. d ≡ self.now) }
    {
        Ok(Doc {
            body: self.body.copy(alloc)?,
            units: self.units,
        })
    }

    /// The change on no units that inserts the document.
    pub fn as_insert(&self, alloc: Global) -> Result<Change, NoMemory>
        ensures { IfOk result (λ change. change ≡ insertion self.now) }
    {
        let mut builder = Builder::new(alloc, 0);
        let mut rest = self.reading();
        'stretches: while let Some(stretch) = rest.take(u32::MAX) {
            builder.insert(stretch.text, stretch.attrs)?;
        }
        builder.finish()
    }

    /// All of it, to be read from its first unit to its last.
    pub fn reading(&self) -> Reading<'_>
        ensures all { result ≡ self.now }
        ensures document { IsDocument self.now }
        ensures short { length self.now < 2 ^ 32 }
    {
        self.body.reading()
    }

    /// Its text, to be passed from its first unit to its last.
    pub fn passing(&self) -> Passing<'_>
        ensures { result ≡ text_of self.now }
    {
        self.body.passing()
    }
}
