//! Tests of what submissions are, and of what judges them: shape, nodes, accesses, ties, hazards, steps, timelines, tight waits.
//! The program itself does nothing, and nothing stands on it.
#![tactic(auto)]

#[cfg(test)]
mod checker;
#[cfg(test)]
mod hb;
#[cfg(test)]
mod same;
#[cfg(test)]
mod sketched;
#[cfg(test)]
mod steps;
#[cfg(test)]
mod ties;
#[cfg(test)]
mod tight;
#[cfg(test)]
mod timeline;
#[cfg(test)]
mod validating;
#[cfg(test)]
mod view;

fn main() {}
