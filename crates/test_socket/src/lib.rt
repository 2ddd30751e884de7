//! Tests of sockets over machines and wires in memory, with one caller and with several. Most are plays: texts whose
//! lines are the calls of callers with what they return. A caller keeps its pass and its open operations.
#![tactic(auto)]

#[cfg(test)]
mod callers;
#[cfg(test)]
mod checks;
#[cfg(test)]
mod contexts;
#[cfg(test)]
mod held;
#[cfg(test)]
mod lanes;
#[cfg(test)]
mod line;
#[cfg(test)]
mod machines;
#[cfg(test)]
mod marks;
#[cfg(test)]
mod one;
#[cfg(test)]
mod pairs;
#[cfg(test)]
mod plays;
#[cfg(test)]
mod steps;
#[cfg(test)]
mod subs;
#[cfg(test)]
mod tests;
#[cfg(test)]
mod threads;
#[cfg(test)]
mod two;
#[cfg(test)]
mod wires;
#[cfg(test)]
mod words;
