//! How the files of pads are named.

ghost use Rattle.std.specs.Prelude.{◌≡◌, ℕ, List, true, Some, IfOk, IfSome};
ghost use Rattle.std.specs.Str.{IsUtf8};
ghost use Rattle.std.specs.String.{string_bytes};
ghost use Rattle.hex.specs.Hex.{IsBytes, decode_of};
ghost use Rattle.ep_units.specs.PadId.{is_own_id};
ghost use Rattle.ep_units.specs.Utf8.{units_of};
ghost use Rattle.ep_edge.specs.FileName.{file_name_of};

use ep_units::{NoMemory, PadId, Units};
use hex::FromHexError;
use std::alloc::Global;

/// The name of a pad's file: the bytes of its id in UTF-8, as lower-case hex, and `.pad`. It has at most 242 bytes.
pub fn file_name(alloc: Global, id: &PadId) -> Result<String, NoMemory>
    ensures { IfOk result (λ name. string_bytes name ≡ file_name_of id.now) }
{
    let text = String::from_utf16_lossy(alloc, id.as_slice())?;
    let mut name = hex::encode(alloc, text.as_str())?;
    name.push_str(".pad")?;
    Ok(name)
}

/// The pad whose file has this name; `None` where no pad's file is named so.
pub fn id_of(alloc: Global, name: &str) -> Result<Option<PadId>, NoMemory>
    ensures named { IfOk result (λ found. IfSome found (λ id. file_name_of id ≡ name.now)) }
    ensures each { IfOk result (λ found. (text : List ℕ) → IsBytes text → IsUtf8 text → is_own_id (units_of text) ≡ true
        → name.now ≡ file_name_of (units_of text) → found ≡ Some (units_of text)) }
{
    let Some(digits) = name.as_bytes().strip_suffix(b".pad") else {
        return Ok(None);
    };
    let Some(id) = id_in(alloc, digits)? else {
        return Ok(None);
    };
    // The digits may be in upper case.
    if file_name(alloc, &id)?.as_str() == name {
        Ok(Some(id))
    } else {
        Ok(None)
    }
}

// The id whose bytes in UTF-8 these hex digits spell.
fn id_in(alloc: Global, digits: &[u8]) -> Result<Option<PadId>, NoMemory>
    ensures { IfOk result (λ found. (text : List ℕ) → decode_of digits.now ≡ Ok text → IsUtf8 text
        → is_own_id (units_of text) ≡ true → found ≡ Some (units_of text)) }
{
    let bytes = match hex::decode(alloc, digits) {
        Ok(bytes) => bytes,
        Err(FromHexError::OutOfMemory) => return Err(NoMemory),
        Err(_) => return Ok(None),
    };
    let Ok(text) = str::from_utf8(&bytes) else {
        return Ok(None);
    };
    PadId::read(alloc, &Units::from_str(alloc, text)?)
}
