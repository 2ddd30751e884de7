//! Tests of nngcat's top call over a system in memory, with exact bytes: what each role sends and prints, and when.
#![tactic(auto)]

#[cfg(test)]
mod asking;
#[cfg(test)]
mod checks;
#[cfg(test)]
mod counted;
#[cfg(test)]
mod dialing;
#[cfg(test)]
mod drills;
#[cfg(test)]
mod first_path;
#[cfg(test)]
mod inproc;
#[cfg(test)]
mod intervals;
#[cfg(test)]
mod ipc;
#[cfg(test)]
mod lines;
#[cfg(test)]
mod nets;
#[cfg(test)]
mod refusals;
#[cfg(test)]
mod roles;
#[cfg(test)]
mod rounds;
#[cfg(test)]
mod spreading;
#[cfg(test)]
mod surveys;
#[cfg(test)]
mod texts;
#[cfg(test)]
mod websocket;
#[cfg(test)]
mod words;
