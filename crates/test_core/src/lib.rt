//! Tests of cores with one owner, over the machines of all roles and wires in memory, with exact results, numbers,
//! totals and bytes.
#![tactic(auto)]

#[cfg(test)]
mod bursts;
#[cfg(test)]
mod busy;
#[cfg(test)]
mod checks;
#[cfg(test)]
mod ends;
#[cfg(test)]
mod failing;
#[cfg(test)]
mod floods;
#[cfg(test)]
mod hops;
#[cfg(test)]
mod pairs;
#[cfg(test)]
mod pipes;
#[cfg(test)]
mod races;
#[cfg(test)]
mod receives;
#[cfg(test)]
mod replies;
#[cfg(test)]
mod requests;
#[cfg(test)]
mod roles;
#[cfg(test)]
mod sends;
#[cfg(test)]
mod subs;
#[cfg(test)]
mod surveys;
#[cfg(test)]
mod threads;
