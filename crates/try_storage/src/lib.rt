//! Records, revisions, keepers and the records of a directory, each tried once: outside values, and that calls succeed.
#![tactic(auto)]

#[cfg(test)]
mod again;
#[cfg(test)]
mod dir_records;
#[cfg(test)]
mod keepers;
#[cfg(test)]
mod map_keeper;
#[cfg(test)]
mod records;
#[cfg(test)]
mod revisions;
#[cfg(test)]
mod sql_keeper;
