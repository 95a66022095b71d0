//! Tests of a running device.
//! The program itself does nothing, and nothing stands on it.
#![tactic(auto)]

#[cfg(test)]
mod control;
#[cfg(test)]
mod drive;
#[cfg(test)]
mod running;

fn main() {}
