//! Headers.

ghost use Rattle.std.specs.Prelude.{◌≡◌, length};
ghost use Rattle.ep_header.specs.Header.{format_in, format_named, header_of};

/// Of format 1: `EPADJNL1`.
const FIRST: [u8; 8] = [69, 80, 65, 68, 74, 78, 76, 49];

/// Of format 2: `EPADJNL2`.
const SECOND: [u8; 8] = [69, 80, 65, 68, 74, 78, 76, 50];

/// So long is a file that stands for no records, whatever it begins with: a header and a gate.
const SHORT: usize = 9;

/// What a file of a format begins with. Each format but 1 is format 2.
pub fn header(format: u8) -> [u8; 8]
    ensures { result ≡ header_of format }
{
    if format == 1 { FIRST } else { SECOND }
}

/// The format that the first eight bytes of a file name, if they are a header.
pub fn named(front: &[u8]) -> Option<u8>
    requires { length front.now ≡ 8 }
    ensures { result ≡ format_named front.now }
{
    if front == FIRST.as_slice() {
        return Some(1);
    }
    if front == SECOND.as_slice() {
        return Some(2);
    }
    None
}

/// The format of a file's first records, none where it is no journal. One of at most 9 bytes is in format 2, as it is
/// written anew.
pub fn format_of(file: &[u8]) -> Option<u8>
    ensures { result ≡ format_in file.now }
{
    if file.len() <= SHORT {
        return Some(2);
    }
    let (front, _) = file.split_at(8);
    named(front)
}
