//! The forms in which a text stands in nodes.

use crate::block::Block;
use crate::node::{Group, Page};
use std::sync::Arc;

/// Blocks, if a group could have them; else groups, if a page could have them; else pages.
pub enum Form {
    Blocks(Vec<Arc<Block>>),
    Groups(Vec<Arc<Group>>),
    Pages(Vec<Arc<Page>>),
}

/// Written out, so that who drops a body knows nothing of its forms.
impl Drop for Form {
    fn drop(self) {
        match self {
            Form::Blocks(_) => {}
            Form::Groups(_) => {}
            Form::Pages(_) => {}
        }
    }
}
