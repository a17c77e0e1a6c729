//! The path of a request.

ghost use Rattle.std.specs.Prelude.{◌≡◌, Ok, Err, Some, None, MatchResult, MatchOption};
ghost use Rattle.ep_ask.specs.Requests.{behind, cut, is_part, is_version, parts_in};

use crate::bad::ApiBad;

fn cut(text: &str) -> Option<(&str, &str)>
    ensures { MatchOption result (cut text.now ≡ None) (λ x. cut text.now ≡ Some (x.0.now, x.1.now)) }
{
    text.split_once('/')
}

fn is_part(text: &str) -> bool
    ensures { result ≡ is_part text.now }
{
    cut(text).is_none()
}

/// What stands behind this part and its slash.
fn behind<'a>(part: &str, text: &'a str) -> Result<&'a str, ApiBad>
    ensures { MatchResult result (λ rest. behind part.now text.entry.now ≡ Ok rest.now) (λ e. behind part.now text.entry.now ≡ Err e) }
{
    let Some((first, rest)) = cut(text) else {
        return Err(ApiBad::NotFound);
    };
    if first == part {
        Ok(rest)
    } else {
        Err(ApiBad::NotFound)
    }
}

/// The version and the function in a path `/api/VERSION/FUNCTION`.
pub fn parts_in(path: &str) -> Result<(&str, &str), ApiBad>
    ensures { MatchResult result (λ p. parts_in path.now ≡ Ok (p.0.now, p.1.now)) (λ e. parts_in path.now ≡ Err e) }
{
    let api = behind("", path)?;
    let rest = behind("api", api)?;
    let Some((version, name)) = cut(rest) else {
        return Err(ApiBad::NotFound);
    };
    if is_part(name) {
        Ok((version, name))
    } else {
        Err(ApiBad::NotFound)
    }
}

pub fn is_version(version: &str) -> bool
    ensures { result ≡ is_version version.now }
{
    version == "1" || version == "1.1" || version == "1.2"
}
