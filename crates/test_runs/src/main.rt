//! Tests of the one top call over memory forms: command lines that run on a device, and generated frames.
//! The program itself does nothing, and nothing stands on it.
#![tactic(auto)]

#[cfg(test)]
mod auditing;
#[cfg(test)]
mod choosing;
#[cfg(test)]
mod deferred;
#[cfg(test)]
mod executing;
#[cfg(test)]
mod flying;
#[cfg(test)]
mod generating;
#[cfg(test)]
mod given;
#[cfg(test)]
mod keeping;
#[cfg(test)]
mod meeting;
#[cfg(test)]
mod operations;
#[cfg(test)]
mod taps;

fn main() {}
