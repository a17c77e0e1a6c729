//! The laws of a pad alone, and of a client alone.

ghost use Rattle.ep_history.specs.Admissible.{TakesAdmissible};
ghost use Rattle.ep_history.specs.Kept.{KeepsEquations};
ghost use Rattle.ep_history.specs.Pad.{EndsOlder};
ghost use Rattle.ep_history.specs.Server.{TextFits, TextsStay, EndsInNewline};

/// An edit is taken exactly where it is a well-formed edit of a live writer.
pub fn taken_where_admissible()
    ensures { TakesAdmissible }
{}

/// Each step of a kept client keeps its equations.
pub fn kept_client_equations()
    ensures { KeepsEquations }
{}

/// The server's text fits a document that ends in a newline, and each step leaves such a text.
pub fn server_text_fits()
    ensures fits { TextFits }
    ensures texts { TextsStay }
    ensures newline { EndsInNewline }
{}

/// An author has at most one live session: who enters ends the older one.
pub fn one_live_session_an_author()
    ensures { EndsOlder }
{}
