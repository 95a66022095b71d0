//! Tests of workers and their tender.
//! The program itself does nothing, and nothing stands on it.
#![tactic(auto)]

#[cfg(test)]
mod alone;
#[cfg(test)]
mod outcome;
#[cfg(test)]
mod programs;
#[cfg(test)]
mod workers;

fn main() {}
