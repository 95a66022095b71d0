//! The worked rows of the top call, over sources and sinks in memory.

use crate::given::gives;
use base::{List, NoMemory};
use base_io::{IdleGate, MemorySink, ReadResult, Source, SteadySource};
use std::alloc::Global;
use std::sync::Wait;
use std::test::Fail;
use std::thread::Threads;
use test_calls::{Status, answer_from, at_rest, command_of};

pub(crate) const FILL: &str =
    "{\"format\":1,\"queues\":[{\"name\":\"g\",\"family\":\"graphics\"}],\"resources\":[{\"name\":\"b\",\"buffer\":16}],\"passes\":[{\"name\":\"p\",\"queue\":\"g\",\"writes\":[{\"new\":\"b\"}],\"ops\":[{\"op\":\"fill_buffer\",\"dst\":\"b\",\"offset\":0,\"size\":16,\"word\":7}]}],\"exports\":[\"b\"]}";

pub(crate) const FILL_TEXT: &str =
    "kept 1 culled 0\nexport b 16\n07000000070000000700000007000000\n";

pub(crate) const CANONICAL: &str =
    "{\"exports\":[\"b\"],\"format\":2,\"passes\":[{\"name\":\"p\",\"ops\":[{\"dst\":\"b\",\"offset\":0,\"op\":\"fill_buffer\",\"size\":16,\"word\":7}],\"queue\":\"g\",\"reads\":[],\"side_effect\":false,\"writes\":[{\"new\":\"b\"}]}],\"queues\":[{\"family\":\"graphics\",\"name\":\"g\"}],\"resources\":[{\"buffer\":16,\"name\":\"b\"}]}\n";

// A command line, a piece of the file of the one fill, or all of it, another in its place, the status and the text.
const FILLS: [(&str, &str, &str, Status, &str); 36] = [
    ("run", FILL, FILL, Status::Done, FILL_TEXT),
    ("run", FILL, CANONICAL, Status::Done, FILL_TEXT),
    (
        "meaning",
        FILL,
        FILL,
        Status::Done,
        "export b 16\n07000000070000000700000007000000\n",
    ),
    ("migrate", FILL, FILL, Status::Done, CANONICAL),
    ("migrate", FILL, CANONICAL, Status::Done, CANONICAL),
    (
        "run",
        "\"format\":1",
        "\"format\":2",
        Status::Done,
        "kept 1 culled 0\nexport b 16\n07000000070000000700000007000000\n",
    ),
    (
        "run",
        "\"graphics\"",
        "\"transfer\"",
        Status::Done,
        "kept 1 culled 0\nexport b 16\n07000000070000000700000007000000\n",
    ),
    (
        "run",
        "\"word\":7",
        "\"word\":305419896",
        Status::Done,
        "kept 1 culled 0\nexport b 16\n78563412785634127856341278563412\n",
    ),
    (
        "run",
        "\"word\":7",
        "\"word\":8,\"word\":9",
        Status::Done,
        "kept 1 culled 0\nexport b 16\n09000000090000000900000009000000\n",
    ),
    (
        "run",
        "16",
        "36",
        Status::Done,
        "kept 1 culled 0\nexport b 36\n0700000007000000070000000700000007000000070000000700000007000000\n07000000\n",
    ),
    // A pass that reads and writes nothing.
    (
        "cull",
        "}],\"exports\"",
        r#"},{"name":"idle","queue":"g","reads":["b"]}],"exports""#,
        Status::Done,
        "kept 1 culled 1\npass p kept\npass idle culled\n",
    ),
    // Two buffers, of which one is exported.
    (
        "cull",
        FILL,
        r#"{"format":1,"queues":[{"name":"g","family":"graphics"}],"resources":[{"name":"b","buffer":16},{"name":"d","buffer":4}],"passes":[{"name":"p","queue":"g","writes":[{"new":"b"},{"new":"d"}],"ops":[{"op":"fill_buffer","dst":"b","offset":0,"size":16,"word":7},{"op":"fill_buffer","dst":"d","offset":0,"size":4,"word":9}]}],"exports":["b"]}"#,
        Status::Done,
        "kept 1 culled 0\npass p kept\n",
    ),
    ("run", FILL, "", Status::Refused, "fault F1 $\n"),
    ("cull", FILL, "", Status::Refused, "fault F1 $\n"),
    ("run", FILL, "[]", Status::Refused, "fault F2 $\n"),
    ("run", "\"b\"]}", "\"b\"]", Status::Refused, "fault F1 $\n"),
    (
        "run",
        "\"word\":7",
        "\"word\":7,\"note\":0",
        Status::Refused,
        "fault F2 $.passes[0].ops[0].note\n",
    ),
    (
        "run",
        "\"exports\":[\"b\"]",
        "\"exports\":[\"b\"],\"x\u{e9}\":0",
        Status::Refused,
        "fault F2 $.x??\n",
    ),
    (
        "run",
        "\"format\":1",
        "\"format\":3",
        Status::Refused,
        "fault F3 $.format\n",
    ),
    (
        "run",
        "{\"name\":\"g\",\"family\":\"graphics\"}",
        "",
        Status::Refused,
        "fault F4 Queues $.queues\n",
    ),
    (
        "run",
        "\"exports\":[\"b\"]",
        "\"exports\":[\"c\"]",
        Status::Refused,
        "fault F6 $.exports[0]\n",
    ),
    (
        "run",
        "{\"new\":\"b\"}",
        "{\"change\":\"b\"}",
        Status::Refused,
        "fault F10 $.passes[0].writes[0]\n",
    ),
    (
        "run",
        "\"size\":16",
        "\"size\":8",
        Status::Refused,
        "fault F9 $.passes[0].writes[0]\n",
    ),
    (
        "run",
        "\"buffer\":16",
        "\"buffer\":16,\"import\":\"00\"",
        Status::Refused,
        "fault F11 $.resources[0].import\n",
    ),
    // A clear and a map on a transfer queue.
    (
        "run",
        FILL,
        r#"{"format":1,"queues":[{"name":"t","family":"transfer"}],"resources":[{"name":"im","image":[1,1],"texel":"r8"}],"passes":[{"name":"p","queue":"t","writes":[{"new":"im"}],"ops":[{"op":"clear_image","dst":"im","value":1}]}],"exports":["im"]}"#,
        Status::Refused,
        "fault F7 $.passes[0].ops[0].op\n",
    ),
    (
        "run",
        FILL,
        r#"{"format":1,"queues":[{"name":"t","family":"transfer"}],"resources":[{"name":"in","buffer":4,"import":"01020304"},{"name":"out","buffer":4}],"passes":[{"name":"p","queue":"t","reads":["in"],"writes":[{"new":"out"}],"ops":[{"op":"map","src":"in","dst":"out","fun":"add","value":1}]}],"exports":["out"]}"#,
        Status::Refused,
        "fault F7 $.passes[0].ops[0].op\n",
    ),
    // An operand that names an image of two layers whole.
    (
        "run",
        FILL,
        r#"{"format":2,"queues":[{"name":"g","family":"graphics"}],"resources":[{"name":"im","image":[2,1],"texel":"r8","layers":2}],"passes":[{"name":"w","queue":"g","writes":[{"new":"im"}],"ops":[{"op":"ramp","dst":"im","base":1,"dx":1,"dy":0},{"op":"ramp","dst":"im/1","base":5,"dx":2,"dy":0}]}],"exports":["im"]}"#,
        Status::Refused,
        "fault F6 $.passes[0].ops[0].dst\n",
    ),
    (
        "migrate",
        "\"exports\":[\"b\"]",
        "\"exports\":[\"c\"]",
        Status::Refused,
        "fault F6 $.exports[0]\n",
    ),
    ("", FILL, FILL, Status::Words, "words\n"),
    ("Run", FILL, FILL, Status::Words, "words\n"),
    ("--help", FILL, FILL, Status::Words, "words\n"),
    ("check --workers 2", FILL, FILL, Status::Words, "words\n"),
    ("run --workers 17", FILL, FILL, Status::Words, "words\n"),
    ("run a b", FILL, FILL, Status::Words, "words\n"),
    ("auto --json", FILL, FILL, Status::Words, "words\n"),
    ("run --version", FILL, FILL, Status::Words, "words\n"),
];

#[test]
fn fills(rt: HostRuntime) -> Result<(), Fail> {
    let alloc = rt.alloc();
    for (line, piece, other, status, text) in &FILLS {
        let file = FILL.replace(alloc, piece, other)?;
        gives(&rt, alloc, line, file.as_str(), *status, text)?;
    }
    Ok(())
}

// A fill and two copies, one after another, that nobody exports.
pub(crate) const CHAIN: &str =
    r#"{"format":1,"queues":[{"name":"g","family":"graphics"}],"resources":[{"name":"x","buffer":4},{"name":"y","buffer":4},{"name":"z","buffer":4}],"passes":[{"name":"a","queue":"g","writes":[{"new":"x"}],"ops":[{"op":"fill_buffer","dst":"x","offset":0,"size":4,"word":7}]},{"name":"b","queue":"g","reads":["x"],"writes":[{"new":"y"}],"ops":[{"op":"copy_buffer","src":"x","dst":"y","src_offset":0,"dst_offset":0,"size":4}]},{"name":"c","queue":"g","reads":["y"],"writes":[{"new":"z"}],"ops":[{"op":"copy_buffer","src":"y","dst":"z","src_offset":0,"dst_offset":0,"size":4}]}],"exports":[]}"#;

const CULLED: &str = "kept 0 culled 3\npass a culled\npass b culled\npass c culled\n";

// A command line, and its text where nobody sees what the chain does, and where its last pass has a side effect.
const CHAINS: [(&str, &str, &str); 2] = [
    (
        "run",
        "kept 0 culled 3\nculled a\nculled b\nculled c\n",
        "kept 3 culled 0\n",
    ),
    (
        "cull",
        CULLED,
        "kept 3 culled 0\npass a kept\npass b kept\npass c kept\n",
    ),
];

#[test]
fn chains(rt: HostRuntime) -> Result<(), Fail> {
    let alloc = rt.alloc();
    let seen = CHAIN.replace(
        alloc,
        "\"name\":\"c\",",
        "\"name\":\"c\",\"side_effect\":true,",
    )?;
    for (line, culled, kept) in &CHAINS {
        gives(&rt, alloc, line, CHAIN, Status::Done, culled)?;
        gives(&rt, alloc, line, seen.as_str(), Status::Done, kept)?;
    }
    Ok(())
}

// What is answered at rest.
fn rests(
    alloc: Global,
    word: &str,
    source: &mut SteadySource,
    sink: &mut MemorySink,
) -> Result<Option<Status>, NoMemory> {
    let command = command_of(alloc, word)?;
    Ok(at_rest(alloc, &command, source, sink))
}

// Whether these need a device, and read and write nothing.
fn need_devices(
    alloc: Global,
    source: &mut SteadySource,
    sink: &mut MemorySink,
) -> Result<bool, NoMemory> {
    for line in &["run --workers 3", "exec --trace", "audit"] {
        if rests(alloc, line, source, sink)?.is_some() {
            return Ok(false);
        }
    }
    Ok(sink.bytes().is_empty())
}

// Whether the source is then culled.
fn is_culled(
    alloc: Global,
    source: &mut SteadySource,
    sink: &mut MemorySink,
) -> Result<bool, NoMemory> {
    let unread = need_devices(alloc, source, sink)?;
    let status = rests(alloc, "cull", source, sink)?;
    Ok(unread && status == Some(Status::Done) && sink.bytes() == CULLED.as_bytes())
}

fn culls(alloc: Global, source: &mut SteadySource) -> Result<bool, NoMemory> {
    let mut sink = MemorySink::new(alloc, 1000, 9, List::new(alloc))?;
    is_culled(alloc, source, &mut sink)
}

#[test]
fn at_rest_answers(rt: HostRuntime) -> Result<(), Fail> {
    let alloc = rt.alloc();
    let mut source = SteadySource::new(List::from_slice(alloc, CHAIN.as_bytes())?, 9);
    assert!(&rt; culls(alloc, &mut source)?);
    Ok(())
}

fn spaces(alloc: Global, count: usize) -> Result<SteadySource, NoMemory> {
    let bytes = List::from_vec(vec![in alloc; b' '; count]?);
    Ok(SteadySource::new(bytes, u32::MAX))
}

// Whether a word gives this text for spaces, and leaves this of them unread.
fn is_refused<R: Threads + Wait + Sync>(
    rt: &R,
    alloc: Global,
    word: &str,
    source: &mut SteadySource,
    text: &str,
    rest: ReadResult,
) -> Result<bool, NoMemory> {
    let answer = answer_from(rt, alloc, word, source, &IdleGate)?;
    Ok(answer.is(Status::Refused, text) && source.read(&mut [0u8; 8]) == rest)
}

// A word, how many spaces it reads, the text, and what is left.
const LENGTHS: [(&str, usize, &str, ReadResult); 4] = [
    ("run", 16_777_216, "fault F1 $\n", ReadResult::End),
    ("run", 16_777_217, "fault F4 Input $\n", ReadResult::End),
    ("run", 16_777_220, "fault F4 Input $\n", ReadResult::Got(3)),
    ("check", 33_554_433, "fault G1 Input $\n", ReadResult::End),
];

#[test]
fn input_limit(rt: HostRuntime) -> Result<(), Fail> {
    let alloc = rt.alloc();
    for (word, count, text, rest) in &LENGTHS {
        let mut source = spaces(alloc, *count)?;
        assert!(&rt;
            is_refused(&rt, alloc, word, &mut source, text, *rest)?,
            "{text}"
        );
    }
    Ok(())
}
