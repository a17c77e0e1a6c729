//! Lines, cut into their words.

ghost use Rattle.std.specs.Prelude.{◌≡◌};
ghost use Rattle.std.specs.Option.{option_copied};
ghost use Rattle.ep_script.specs.Words.{first_word, behind_word, next, behind};

/// The first word of a text, and what stands behind the space that ends it.
pub(crate) fn cut_word(text: &str) -> (&str, Option<&str>)
    ensures word { result.0.now ≡ first_word text.now }
    ensures rest { option_copied result.1 ≡ behind_word text.now }
{
    match text.split_once(' ') {
        Some((word, rest)) => (word, Some(rest)),
        None => (text, None),
    }
}

/// The next word of a line, and what stands behind it.
pub(crate) fn cut(rest: Option<&str>) -> (Option<&str>, Option<&str>)
    ensures word { option_copied result.0 ≡ next (option_copied rest.entry) }
    ensures rest { option_copied result.1 ≡ behind (option_copied rest.entry) }
{
    match rest {
        Some(rest) => {
            let (word, rest) = cut_word(rest);
            (Some(word), rest)
        }
        None => (None, None),
    }
}

/// What stands behind the next word.
pub(crate) fn behind(rest: Option<&str>) -> Option<&str>
    ensures { option_copied result ≡ behind (option_copied rest.entry) }
{
    let (_, behind) = cut(rest);
    behind
}
