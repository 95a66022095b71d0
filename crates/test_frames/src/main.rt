//! Tests of what frames are and mean: faults, versions, culling, meaning, groups, lifetimes, the choice of queues.
//! The program itself does nothing, and nothing stands on it.
#![tactic(auto)]

#[cfg(test)]
mod auto;
#[cfg(test)]
mod frames;
#[cfg(test)]
mod groups;
#[cfg(test)]
mod lifetimes;
#[cfg(test)]
mod meaning;
#[cfg(test)]
mod sketched;
#[cfg(test)]
mod versions;

fn main() {}
