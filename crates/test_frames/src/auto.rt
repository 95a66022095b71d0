ghost use Rattle.std.specs.Prelude.{◌≡◌, length};

use crate::sketched::good;
use base::NoMemory;
use compile_queues::{Choice, choose};
use frame::ValidFrame;
use frame_gen::generate;
use frame_meaning::{Exports, exports_of};
use std::alloc::Global;
use std::test::Fail;

// Frames, what they cost as given and as chosen, and the queues of the chosen one's passes. Queue 0 is a graphics queue and 1
// a transfer queue; those that are declared follow, and are compute queues.
const ROWS: [(&str, (u64, u64), &[u32]); 9] = [
    // A pass that no other queue makes cheaper.
    ("x:b |g w:+b fill:b:16", (2, 2), &[0]),
    // Two passes that need nothing of each other: the first one moves.
    (
        "queue:c x:b x:c |g w:+b ramp:b |g w:+c ramp:c",
        (4, 2),
        &[2, 0],
    ),
    // The same on the compute queue: the least number is that of the graphics queue.
    (
        "queue:c x:b x:c |c w:+b ramp:b |c w:+c ramp:c",
        (4, 2),
        &[0, 2],
    ),
    // Two queues that are as good: the one with the least number is taken.
    (
        "queue:c queue:d x:b x:c |g w:+b ramp:b |g w:+c ramp:c",
        (4, 2),
        &[2, 0],
    ),
    // Each queue is as good: the pass stays where it is.
    ("queue:c queue:d x:b |d w:+b ramp:b", (2, 2), &[3]),
    // A transfer queue fills, and runs no ramp.
    ("x:b x:c |g w:+b fill:b:16 |g w:+c ramp:c", (4, 2), &[1, 0]),
    ("x:b x:c |g w:+b ramp:b |g w:+c fill:c:16", (4, 2), &[0, 1]),
    // A pass that needs what the other made comes after it wherever it runs.
    (
        "queue:c x:c |g w:+b ramp:b |g r:b w:+c map:b:c",
        (3, 3),
        &[0, 0],
    ),
    // 4,096 bytes cost 1 more, and one byte less does not.
    (
        "buffer:large:8192 buffer:small:4092 x:large x:small |g w:+large ramp:large |g w:+small ramp:small",
        (8, 8),
        &[0, 0],
    ),
];

fn are_costs(choice: &Choice, costs: (u64, u64)) -> bool {
    (choice.given, choice.found) == costs
}

// Whether the passes are on these queues.
fn are_on(frame: &ValidFrame, queues: &[u32]) -> bool {
    if frame.pass_count() as usize != queues.len() {
        return false;
    }
    for pass in 0..frame.pass_count() {
        if frame.queue_of(pass) != queues[pass as usize] {
            return false;
        }
    }
    true
}

fn is_chosen(
    alloc: Global,
    frame: &ValidFrame,
    costs: (u64, u64),
    queues: &[u32],
) -> Result<bool, NoMemory> {
    let choice = choose(alloc, frame)?;
    Ok(are_costs(&choice, costs) && are_on(&choice.frame, queues))
}

#[test]
fn chosen(rt: HostRuntime) -> Result<(), Fail> {
    let alloc = rt.alloc();
    for (line, costs, queues) in &ROWS {
        assert!(&rt;
            is_chosen(alloc, &good(alloc, line)?, *costs, queues)?,
            "{line}"
        );
    }
    Ok(())
}

// Whether so many units hold the same bytes.
fn are_same(one: &Exports, other: &Exports, count: u32) -> bool
    requires one { length one.now ≡ count }
    requires other { length other.now ≡ count }
{
    for unit in 0..count {
        if one.get(unit) != other.get(unit) {
            return false;
        }
    }
    true
}

// Whether a frame has the exports of another one.
fn has_exports(
    alloc: Global,
    frame: &ValidFrame,
    wanted: &Exports,
    count: u32,
) -> Result<bool, NoMemory>
    requires { length wanted.now ≡ count }
{
    if frame.unit_count() != count {
        return Ok(false);
    }
    let exports = exports_of(alloc, frame)?;
    Ok(are_same(&exports, wanted, count))
}

fn have_same_exports(
    alloc: Global,
    one: &ValidFrame,
    other: &ValidFrame,
) -> Result<bool, NoMemory> {
    let exports = exports_of(alloc, one)?;
    has_exports(alloc, other, &exports, one.unit_count())
}

// Whether the frame becomes cheaper, and its exports stay the same bytes.
fn is_cheaper(alloc: Global, frame: &ValidFrame) -> Result<bool, NoMemory> {
    let choice = choose(alloc, frame)?;
    Ok(choice.found < choice.given && have_same_exports(alloc, frame, &choice.frame)?)
}

// A frame of 256 passes on three queues.
#[test]
fn same_exports(rt: HostRuntime) -> Result<(), Fail> {
    let alloc = rt.alloc();
    assert!(&rt; is_cheaper(alloc, &generate(alloc, 7, 256)?)?);
    Ok(())
}
