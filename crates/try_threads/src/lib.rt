//! Links, doors, one lock and a keeper in another thread, each tried once: what their clauses can't say.
#![tactic(auto)]

#[cfg(test)]
mod cells;
#[cfg(test)]
mod far;
#[cfg(test)]
mod links;
#[cfg(test)]
mod serving;
