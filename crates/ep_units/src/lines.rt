//! Lines of a text.

ghost use Rattle.std.specs.Prelude.{◌≡◌};
ghost use Rattle.ep_units.specs.Text.{ends_in_newline};

/// Whether the last unit is a newline.
pub fn ends_in_newline(units: &[u16]) -> bool
    ensures { result ≡ ends_in_newline units.now }
{
    match units {
        [.., last] => *last == 10,
        [] => false,
    }
}
