//! The compiler for C: an export for each command that needs no device.
#![tactic(auto)]

mod call;
mod export;
mod exports;
