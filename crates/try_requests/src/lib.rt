//! Tries what requests are read to and what is replied: HTTP (`ep_http`), the functions of the API (`ep_ask`), and the
//! words behind the program's name (`ep_words`).
#![tactic(auto)]

#[cfg(test)]
mod ask;
#[cfg(test)]
mod http;
#[cfg(test)]
mod words;
