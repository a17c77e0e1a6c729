//! The key.

ghost use Rattle.std.specs.Prelude.{◌≡◌, ◌↔◌, IsTrue, bytes_eq};
ghost use Rattle.std.specs.Option.{option_copied};
ghost use Rattle.ep_ask.specs.Requests.{is_key};

/// Whether a key is given in full.
///
/// It is compared to its end wherever it differs first, so that the time taken tells nothing of it but its length.
pub fn is_key(key: &str, given: Option<&str>) -> bool
    ensures { result ≡ is_key key.now (option_copied given.entry) }
{
    match given {
        Some(given) => are_same(given.as_bytes(), key.as_bytes()),
        None => false,
    }
}

fn are_same(given: &[u8], key: &[u8]) -> bool
    ensures { result ≡ bytes_eq given.now key.now }
{
    let least = given.len().min(key.len());
    let mut same = given.len() == key.len();
    for i in 0..least {
        if given[i] != key[i] {
            same = false;
        }
    }
    same
}
