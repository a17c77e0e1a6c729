//! Tests of texts, of attribute maps and of pools: what their calls answer in worked examples.
//!
//! They stand apart from the libraries, so that a library is proved once and not again with its tests.
#![tactic(auto)]

#[cfg(test)]
mod maps;
#[cfg(test)]
mod pools;
#[cfg(test)]
mod units;
