//! Tries the devices of `ep_net` over real sockets: WebSockets, callers of the API, and the doors at which both come.
#![tactic(auto)]

#[cfg(test)]
mod api_stream;
#[cfg(test)]
mod tcp_doors;
#[cfg(test)]
mod ws_link;
