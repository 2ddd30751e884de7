//! Examples of WebSocket: heads that open it and heads that don't, frames that come, and what is written. And links in
//! memory that are opened in each of the ways: by a greeting, by serving and by asking.
#![tactic(auto)]

#[cfg(test)]
mod checks;
#[cfg(test)]
mod floods;
#[cfg(test)]
mod frames;
#[cfg(test)]
mod heads;
#[cfg(test)]
mod hostile;
#[cfg(test)]
mod links;
#[cfg(test)]
mod room;
#[cfg(test)]
mod rows;
#[cfg(test)]
mod sockets;
#[cfg(test)]
mod writes;
