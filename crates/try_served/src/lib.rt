//! Tests of what is served and of who calls, over devices in memory: writers, what they tell, servers, what is shown of a
//! shelf, and verdicts.
#![tactic(auto)]

#[cfg(test)]
mod messages;
#[cfg(test)]
mod peer;
#[cfg(test)]
mod serve;
#[cfg(test)]
mod shown;
#[cfg(test)]
mod verdicts;
#[cfg(test)]
mod written;
