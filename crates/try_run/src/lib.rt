//! Tests of all that the program does, over a text, a page, a shelf and doors in memory.
#![tactic(auto)]

#[cfg(test)]
mod run;
