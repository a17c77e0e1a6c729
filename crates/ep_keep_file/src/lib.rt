//! The keeper over a file, by a name of its own.
//!
//! It is `SqlKeeper` over a file and nothing more. The type says nothing of the database's store, so that what stands on it
//! is not checked over that store again. The crates above may rest on its being a keeper. It is not for one in memory.
#![tactic(auto)]

mod table_in_file;

pub use table_in_file::TableInFile;
