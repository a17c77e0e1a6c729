//! An editor of one pad: what whoever shows the pad's text asks for, and what it is answered.
//!
//! The crates above may rest on `Editor`: each call answers what the table in `specs/Requests` says of its request, or is
//! refused by the first cause and changes nothing; and on the laws: an editor's client takes only steps of the client rules,
//! what it sends is what these submit, and each change that is answered leads from what was shown to what is to be shown. It
//! owns no connection, and reads no line.
#![tactic(auto)]

mod bad;
mod editor;
mod entered;
mod kept;
mod laws;
mod past;
mod ready;

pub use bad::EditorBad;
pub use editor::{Editor, Said, State, Wanted};
pub use entered::Entered;
pub use kept::Kept;
pub use laws::{
    a_lost_connection_loses_no_work, answers_each_change_of_the_view, keeps_the_client_rules,
    the_slider_shows_the_history, what_is_kept_goes_on,
};
