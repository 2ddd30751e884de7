//! Tests of the machines of all roles, with exact messages, ids and results: small ones, long lives, bodies of 1 MiB
//! and more, and many topics. Each plays a text (`plays`).
#![tactic(auto)]

#[cfg(test)]
mod bus;
#[cfg(test)]
mod checks;
#[cfg(test)]
mod copies;
#[cfg(test)]
mod large;
#[cfg(test)]
mod long;
#[cfg(test)]
mod machines;
#[cfg(test)]
mod many;
#[cfg(test)]
mod meaningless;
#[cfg(test)]
mod pair;
#[cfg(test)]
mod pipeline;
#[cfg(test)]
mod plays;
#[cfg(test)]
mod publishers;
#[cfg(test)]
mod replies;
#[cfg(test)]
mod requests;
#[cfg(test)]
mod resends;
#[cfg(test)]
mod subs;
#[cfg(test)]
mod surveys;
#[cfg(test)]
mod topics;
#[cfg(test)]
mod words;
