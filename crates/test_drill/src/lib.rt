//! Examples of drills and lanes. What tasks, wires and sockets do is written as texts (`marks`, `plays`).
#![tactic(auto)]

#[cfg(test)]
mod checks;
#[cfg(test)]
mod held;
#[cfg(test)]
mod lanes;
#[cfg(test)]
mod marks;
#[cfg(test)]
mod plays;
#[cfg(test)]
mod race;
#[cfg(test)]
mod tests;
#[cfg(test)]
mod words;
