//! A program that is timed: it does a call of the table of caches a number of times, or drives the device of a submission.
#![tactic(auto)]

mod call;
mod driving;
mod ranges;
mod repeat;
mod small;
mod stopped;
mod table;

use crate::call::call_of;
use crate::driving::make;
use crate::repeat::repeat;
use crate::small::{run_small, small_of};
use crate::stopped::Stopped;
use std::alloc::Global;
use std::env;
use std::io::{Print, Read};
use std::process::ExitCode;
use std::rt::{Env, Runtime};
use std::thread::Threads;

// The word with this number; the program's name has the number 0.
fn word<R: Env + AllocGlobal>(rt: &R, at: usize) -> Result<Option<String>, Stopped> {
    match env::args(rt) {
        Ok(mut words) => Ok(words.nth(at)),
        Err(_) => Err(Stopped),
    }
}

fn bytes_of<I: Read>(alloc: Global, input: &mut I) -> Result<Vec<u8>, Stopped> {
    let mut bytes = Vec::new(alloc);
    match input.read_to_end(&mut bytes) {
        Ok(_) => Ok(bytes),
        Err(_) => Err(Stopped),
    }
}

fn times_of(word: &str) -> Result<u32, Stopped> {
    match word.parse::<u32>() {
        Ok(times) => Ok(times),
        Err(_) => Err(Stopped),
    }
}

fn sum_of(alloc: Global, word: &str, times: u32) -> Result<u64, Stopped> {
    if let Some(action) = small_of(word) {
        return run_small(alloc, action, times);
    }
    match call_of(word) {
        Some(call) => repeat(alloc, call, times),
        None => Err(Stopped),
    }
}

// A call so many times; then what it left is printed as one number, so that no call is left out.
fn repeated(rt: &impl Print, alloc: Global, call: &str, times: &str) -> Result<(), Stopped> {
    let sum = sum_of(alloc, call, times_of(times)?)?;
    match println!(rt; "{sum}") {
        Ok(()) => Ok(()),
        Err(_) => Err(Stopped),
    }
}

// The device of what is read.
fn read<R: Runtime + AllocGlobal + Threads + Sync>(rt: &R, drives: bool) -> Result<(), Stopped> {
    let bytes = bytes_of(rt.alloc(), &mut rt.reader())?;
    make(rt, rt.alloc(), &bytes, drives)
}

fn obey_one<R: Runtime + AllocGlobal + Threads + Sync>(rt: &R, word: &str) -> Result<(), Stopped> {
    match word {
        "device" => read(rt, false),
        "drive" => read(rt, true),
        _ => Err(Stopped),
    }
}

fn obey_two<R: Runtime + AllocGlobal>(rt: &R, call: &str, times: &str) -> Result<(), Stopped> {
    if word(rt, 3)?.is_some() {
        return Err(Stopped);
    }
    repeated(rt, rt.alloc(), call, times)
}

fn obey<R: Runtime + AllocGlobal + Threads + Sync>(rt: &R, first: &str) -> Result<(), Stopped> {
    match word(rt, 2)? {
        None => obey_one(rt, first),
        Some(second) => obey_two(rt, first, second.as_str()),
    }
}

fn run<R: Runtime + AllocGlobal + Threads + Sync>(rt: &R) -> Result<(), Stopped> {
    match word(rt, 1)? {
        None => Ok(()),
        Some(first) => obey(rt, first.as_str()),
    }
}

fn main(rt: HostRuntime) -> ExitCode {
    match run(&rt) {
        Ok(()) => ExitCode::SUCCESS,
        Err(Stopped) => ExitCode::FAILURE,
    }
}
