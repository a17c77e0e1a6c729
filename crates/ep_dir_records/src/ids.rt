//! New ids.

ghost use Rattle.std.specs.Prelude.{◌≡◌, ◌<◌, ◌++◌, IfOk, IsTrue, OnOk, map, nat_lt};
ghost use Rattle.std.specs.List.{list_all};
ghost use Rattle.ep_units.specs.Base36.{digit};
ghost use Rattle.ep_dir_records.specs.Ids.{id_of, letter, six_digits};

use ep_units::{NoMemory, Units};
use std::alloc::Global;

/// How many ids there are: as many as six digits of base 36 tell apart.
pub const MOST_IDS: u64 = 2_176_782_336;

const BASE: u64 = 36;

// Between a kind's letter and the draws.
const DOT: u16 = b'.' as u16;

/// What an id is of.
#[derive(Clone, Copy, Debug, PartialEq, Eq)]
pub enum IdKind {
    Group,
    Author,
    Session,
    ReadOnly,
}

impl IdKind {
    /// The letter that its ids begin with.
    pub fn letter(self) -> u8
        ensures { result ≡ letter self }
    {
        match self {
            IdKind::Group => b'g',
            IdKind::Author => b'a',
            IdKind::Session => b's',
            IdKind::ReadOnly => b'r',
        }
    }
}

/// Ten numbers below 36, drawn by lot.
#[derive(Clone, Copy)]
pub struct Drawn {
    pub digits: [u8; 10],
    ghost below: { IsTrue (list_all (λ d. nat_lt d 36) digits) },
}

// The unit of a digit: 0 to 9, then a to z.
fn digit(d: u64) -> u16
    requires { d < 36 }
    ensures { result ≡ digit d }
{
    if d < 10 {
        b'0' as u16 + d as u16
    } else {
        b'a' as u16 + (d - 10) as u16
    }
}

fn push_drawn(id: &mut Units, drawn: &Drawn) -> Result<(), NoMemory>
    ensures { OnOk result (id.new ≡ id.old ++ map digit drawn.now.digits) }
{
    for drawn_digit in drawn.digits.as_slice() {
        id.push(digit(*drawn_digit as u64))?;
    }
    Ok(())
}

// The count in six digits of base 36, from the fifth power down.
fn push_count(id: &mut Units, n: u64) -> Result<(), NoMemory>
    ensures { OnOk result (id.new ≡ id.old ++ six_digits n) }
{
    id.push(digit(n / 60_466_176 % BASE))?;
    id.push(digit(n / 1_679_616 % BASE))?;
    id.push(digit(n / 46_656 % BASE))?;
    id.push(digit(n / 1_296 % BASE))?;
    id.push(digit(n / BASE % BASE))?;
    id.push(digit(n % BASE))
}

/// The id of this kind by ten draws and the count of ids given before it.
pub fn new_id(alloc: Global, kind: IdKind, drawn: &Drawn, n: u64) -> Result<Units, NoMemory>
    ensures { IfOk result (λ id. id ≡ id_of kind drawn.now.digits n) }
{
    let mut id = Units::new(alloc);
    id.push(kind.letter() as u16)?;
    id.push(DOT)?;
    push_drawn(&mut id, drawn)?;
    push_count(&mut id, n)?;
    Ok(id)
}
