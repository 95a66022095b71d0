use crate::sketched::good;
use base::Leg;
use frame::{Frame, FrameError, FrameFault, ValidFrame, validate_frame};
use std::alloc::{AllocError, Global};
use std::process::Abort;
use std::test::Fail;
use test_sketch::sketched_frame;

fn add_leg(alloc: Global, text: &mut Vec<u8>, leg: &Leg) -> Result<(), AllocError> {
    match leg {
        Leg::Member(name) => {
            text.push(b'.')?;
            text.extend_from_slice(name.as_slice())?;
        }
        Leg::Position(at) => text.extend_from_slice(format!(in alloc; "[{at}]")?.as_bytes())?,
    }
    Ok(())
}

// The number of the rule, and the name of the limit.
fn rule(alloc: Global, fault: &FrameFault) -> Result<String, AllocError> {
    match fault.limit {
        Some(limit) => format!(in alloc; "F{} {} $", fault.number, limit.name()),
        None => format!(in alloc; "F{} $", fault.number),
    }
}

// The fault as it is printed.
fn shown(alloc: Global, fault: &FrameFault) -> Result<Vec<u8>, AllocError> {
    let mut text = Vec::from_slice(alloc, rule(alloc, fault)?.as_bytes())?;
    for leg in fault.location.as_slice() {
        add_leg(alloc, &mut text, leg)?;
    }
    Ok(text)
}

// The first fault of a frame; nothing for a good one.
fn fault_of(alloc: Global, frame: Frame) -> Result<Vec<u8>, AllocError> {
    match validate_frame(alloc, frame) {
        Ok(_) => Ok(Vec::new(alloc)),
        Err(FrameError::Refused(fault, _)) => shown(alloc, &fault),
        Err(FrameError::NoMemory(_)) => Vec::from_slice(alloc, b"no memory"),
    }
}

fn judge(rt: &impl Abort, alloc: Global, rows: &[(&str, &str)]) -> Result<(), Fail> {
    for (line, want) in rows {
        let frame = sketched_frame(alloc, line)?.copy(alloc)?;
        let found = fault_of(alloc, frame)?;
        assert!(rt; found.as_slice() == want.as_bytes(), "{line}");
    }
    Ok(())
}

// Declarations that are too many or too large, and as many as can be.
const LIMITS: [(&str, &str); 28] = [
    ("queues:0", "F4 Queues $.queues"),
    ("queues:4", ""),
    ("queues:5", "F4 Queues $.queues"),
    ("image:more:1:0", "F4 Layers $.resources[5]"),
    ("image:more:1:8", ""),
    ("image:more:1:9", "F4 Layers $.resources[5]"),
    ("deep:more:2", "F4 Layers $.resources[5]"),
    ("deep:more:0 queues:0", "F4 Layers $.resources[5]"),
    ("image:more:4096:1", "F4 Size $.resources[5]"),
    ("image:more:4097:1", "F4 Side $.resources[5]"),
    ("image:more:0:1", "F4 Side $.resources[5]"),
    ("image:more:2048:1", ""),
    ("buffer:more:16777216", ""),
    ("buffer:more:16777217", "F4 Size $.resources[5]"),
    ("buffer:more:0", "F4 Size $.resources[5]"),
    ("buffers:250:1", ""),
    ("buffers:251:1", "F4 Resources $.resources"),
    ("buffers:15:16777216", ""),
    ("buffers:16:16777216", "F4 Total $.resources[20]"),
    ("passes:256", ""),
    ("passes:257", "F4 Passes $.passes"),
    ("exports:32 |g r:y", "F6 $.passes[0].reads[0]"),
    ("exports:33 |g r:y", "F4 Exports $.exports"),
    ("exports:30 x:im |g r:y", "F6 $.passes[0].reads[0]"),
    ("exports:31 x:im |g r:y", "F4 Exports $.exports"),
    ("|g |g fills:256 |g", "F6 $.passes[1].ops[0].dst"),
    (
        "|g fills:2 |g fills:255 draw:one:4097",
        "F4 Ops $.passes[1].ops",
    ),
    (
        "|g draw:one:4096 |g draw:one:1",
        "F4 Rects $.passes[1].ops[0].rects",
    ),
];

// Names and entries that stand twice, with layers and without.
const REPEATED: [(&str, &str); 11] = [
    ("queue:g", "F5 $.queues[2]"),
    ("buffer:d:4 image:c:1:1", "F5 $.resources[6]"),
    ("passes:2 |g |g", "F5 $.passes[2]"),
    ("|g r:b r:c r:b", "F5 $.passes[0].reads[2]"),
    ("|g r:im/0 r:im/1 r:im", "F5 $.passes[0].reads[2]"),
    ("|g r:im r:im/1", "F5 $.passes[0].reads[1]"),
    ("|g r:x/1 r:x/0 r:x/1", "F5 $.passes[0].reads[2]"),
    ("|g r:x w:+b w:b", "F5 $.passes[0].writes[1]"),
    ("x:b x:in x:b |g r:x", "F5 $.exports[2]"),
    ("|g r:c |q r:b r:b", "F5 $.passes[1].reads[1]"),
    ("|g r:in r:in w:b w:b", "F5 $.passes[0].reads[1]"),
];

// Names and layers that are not there, and operands without the layer that they need.
const UNKNOWN: [(&str, &str); 11] = [
    ("|q r:x w:+y", "F6 $.passes[0].queue"),
    ("|g r:im/1 r:im/2 w:+y", "F6 $.passes[0].reads[1]"),
    ("|g r:b/0", "F6 $.passes[0].reads[0]"),
    ("|g r:in w:+y fill:x:16", "F6 $.passes[0].writes[0]"),
    ("|g w:+im clear:im/0 clear:im", "F6 $.passes[0].ops[1].dst"),
    ("|g r:b w:+c select:b:b:x:c", "F6 $.passes[0].ops[0].b"),
    ("x:im/7", "F6 $.exports[0]"),
    ("x:in x:no |t w:+one clear:one", "F6 $.exports[1]"),
    ("|g w:+one clear:one/0", ""),
    ("x:im/1 x:im/0 |g w:+im clear:im/0 clear:im/1", ""),
    ("|g w:+im/1 clear:im/1 |g r:im/1 w:+one map:im/1:one", ""),
];

// Families, and operands that are not declared.
const DECLARED: [(&str, &str); 9] = [
    ("|t w:+one clear:one", "F7 $.passes[0].ops[0].op"),
    ("|t w:+b map:in:b", "F7 $.passes[0].ops[0].op"),
    (
        "|t w:+b w:+one fill:b:16 draw:one:0",
        "F7 $.passes[0].ops[1].op",
    ),
    ("x:b |t w:+b fill:b:16", ""),
    ("|g w:+b map:in:b", "F8 $.passes[0].ops[0].src"),
    ("|g r:b w:+c map:b:b", "F8 $.passes[0].ops[0].dst"),
    ("|g r:in w:+b select:in:in:c:b", "F8 $.passes[0].ops[0].b"),
    ("|g r:im/1 w:+one map:im/0:one", "F8 $.passes[0].ops[0].src"),
    (
        "|g w:+b fill:c:16 |t w:+one clear:one",
        "F7 $.passes[1].ops[0].op",
    ),
];

// New contents that are not stored whole, and contents that nothing wrote.
const WRITTEN: [(&str, &str); 14] = [
    ("x:b |g w:+b fill:b:8", "F9 $.passes[0].writes[0]"),
    ("|g w:+b w:+c fill:b:16 map:c:b", "F9 $.passes[0].writes[1]"),
    ("|g w:+b w:+c", "F9 $.passes[0].writes[0]"),
    ("|g r:in w:+b copy:in:b:4", "F9 $.passes[0].writes[0]"),
    ("|g w:+im clear:im/0", "F9 $.passes[0].writes[0]"),
    ("x:b |g w:b fill:b:16", "F10 $.passes[0].writes[0]"),
    ("|g r:in r:c", "F10 $.passes[0].reads[1]"),
    ("x:in x:c |g w:+b fill:b:16", "F10 $.exports[1]"),
    ("x:im |g w:+im/0 clear:im/0", "F10 $.exports[0]"),
    ("|g r:b |g w:+b fill:b:16", "F10 $.passes[0].reads[0]"),
    (
        "|g w:+im/0 clear:im/0 |g r:im/1",
        "F10 $.passes[1].reads[0]",
    ),
    ("|g w:+im/0 w:im/1 clear:im/0", "F10 $.passes[0].writes[1]"),
    (
        "|g w:+im/0 clear:im/0 |g r:im/0 w:+im/1 across:im/0:im/1",
        "",
    ),
    ("x:b |g w:+b fill:b:16 |t r:b w:b fill:b:16", ""),
];

// Sizes, sources that are the destination, and reads of new contents.
const FITTED: [(&str, &str); 10] = [
    ("import:more:4:3", "F11 $.resources[5].import"),
    ("import:more:3:4", "F11 $.resources[5].import"),
    ("import:more:4:4", ""),
    ("picture:more:4", "F11 $.resources[5].import"),
    ("|g r:in w:+b map:in:b", "F11 $.passes[0].ops[0].op"),
    ("|g w:+one fill:one:16", "F11 $.passes[0].ops[0].op"),
    ("|g w:+b map:b:b", "F12 $.passes[0].ops[0].dst"),
    ("x:im |g w:+im clear:im/0 across:im/0:im/1", ""),
    (
        "|g w:+b fill:b:16 |g r:b w:+b fill:b:16",
        "F13 $.passes[1].writes[0]",
    ),
    (
        "|g w:+im/0 clear:im/0 |g r:im/0 w:+c w:+im clear:im/1 clear:im/0 fill:c:16",
        "F13 $.passes[1].writes[1]",
    ),
];

#[test]
fn faults(rt: HostRuntime) -> Result<(), Fail> {
    let alloc = rt.alloc();
    judge(&rt, alloc, &LIMITS)?;
    judge(&rt, alloc, &REPEATED)?;
    judge(&rt, alloc, &UNKNOWN)?;
    judge(&rt, alloc, &DECLARED)?;
    judge(&rt, alloc, &WRITTEN)?;
    judge(&rt, alloc, &FITTED)
}

// What the counts and exports of a valid frame are.
fn numbered(rt: &impl Abort, good: &ValidFrame) {
    assert!(rt; good.queue_count() == 2 && good.pass_count() == 2);
    assert!(rt; good.unit_count() == 6);
    assert!(rt; good.exports() == [4u32, 2, 3].as_slice());
}

#[test]
fn units(rt: HostRuntime) -> Result<(), Fail> {
    let line =
        "x:one x:im |t w:+b fill:b:16 |g r:in r:b w:+im w:+one clear:im/1 clear:im/0 map:im/1:one";
    numbered(&rt, &good(rt.alloc(), line)?);
    Ok(())
}
