//! Changes of attributed text: what every crate above means by a document, an edit, a change, fits, apply,
//! compose, follow and rebase.
//!
//! The crates above may rest on the definitions in `specs/`, on the laws in `laws` and on the exact
//! clauses of the calls.
#![tactic(auto)]

mod bad;
mod builder;
mod change;
mod laws;
mod lines;
mod new_map;
mod normal;
mod op;
mod packed;

pub use bad::{First, FitBad};
pub use builder::Builder;
pub use change::Change;
pub use laws::{
    composed_by_items, composed_in_any_grouping, composed_is_both, fitting_edits_stay,
    fitting_is_stamped, followed_either_way, identity_changes_nothing, identity_is_unit,
    known_by_items, pairs_are_kept, plain_is_its_text, refused_where_it_does_not_fit,
    splice_replaces, texts_stay_well_formed,
};
pub use lines::{MOST_UNITS, count_lines, last_line};
pub use new_map::without_empty;
pub use op::{Kind, Op};
