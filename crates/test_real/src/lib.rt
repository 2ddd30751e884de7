//! Tests of the real system on this machine: its net, its pace, its output and its files, byte for byte. What is said
//! about the net, the pace and the files is written as texts (`nets`, `links`, `files`).
#![tactic(auto)]

#[cfg(test)]
mod adapters;
#[cfg(test)]
mod bytes;
#[cfg(test)]
mod checks;
#[cfg(test)]
mod files;
#[cfg(test)]
mod input;
#[cfg(test)]
mod late;
#[cfg(test)]
mod links;
#[cfg(test)]
mod nets;
#[cfg(test)]
mod outputs;
#[cfg(test)]
mod real;
#[cfg(test)]
mod still;
#[cfg(test)]
mod websocket;
