//! Laws of the definitions.

ghost use Rattle.std.specs.Prelude.{◌≡◌, ◌≢◌, ℕ, List, Some, Result, Ok, Err};
ghost use Rattle.ep_http.specs.Requests.{ComesTo, Makes, Refuses};
ghost use Rattle.ep_http.specs.Streams.{EndsIn};
ghost use Rattle.ep_http.specs.declared.bad.HttpBad.{HttpBad};
ghost use Rattle.ep_http.specs.declared.bad.HttpBad.TheVariants as bad;
ghost use Rattle.ep_http.specs.declared.request.Request.{Request};

/// The same bytes come to one request or to one refusal.
pub fn bytes_come_to_one_answer()
    ensures { (bytes : List ℕ) (limit : ℕ) (a b : Result Request HttpBad) → ComesTo bytes limit a → ComesTo bytes limit b → a ≡ b }
{}

/// What a source has left comes to one answer, in whatever pieces it comes; and what is read of a source that tells is that answer,
/// unless it failed or there was no memory.
pub fn a_source_has_one_answer()
    ensures one { (left : List ℕ) (limit : ℕ) (a b : Result Request HttpBad) → EndsIn left limit a → EndsIn left limit b → a ≡ b }
    ensures read { (left new : List ℕ) (limit : ℕ) (r : Request) → Makes (Some left) (Some new) limit r → EndsIn left limit (Ok r) }
    ensures refused { (left new : List ℕ) (before now limit : ℕ) (why : HttpBad) → Refuses (Some left) (Some new) before now limit why
        → why ≢ bad.NoMemory → ((n : ℕ) → why ≢ bad.Read n) → EndsIn left limit (Err why) }
{}
