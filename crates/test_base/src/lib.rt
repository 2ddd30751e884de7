//! Tests of what all else is built on: addresses, roles, numbers, bytes, messages, the outside in memory, operation
//! words, deadlines, pending operations, the turn lock and its uses, and lanes within the process.
#![tactic(auto)]

#[cfg(test)]
mod addresses;
#[cfg(test)]
mod checks;
#[cfg(test)]
mod deadline_calls;
#[cfg(test)]
mod deadlines;
#[cfg(test)]
mod lanes;
#[cfg(test)]
mod messages;
#[cfg(test)]
mod numbers;
#[cfg(test)]
mod operation_words;
#[cfg(test)]
mod pending;
#[cfg(test)]
mod plain;
#[cfg(test)]
mod plays;
#[cfg(test)]
mod turns;
#[cfg(test)]
mod uses_of_turns;
