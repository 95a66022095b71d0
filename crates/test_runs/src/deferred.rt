//! A small deferred renderer at 1920 by 1080, with 24 passes on three queues.

use crate::auditing::is_audited;
use crate::given::gives;
use base::NoMemory;
use base_io::IdleGate;
use std::alloc::{AllocError, Global};
use std::process::Abort;
use std::sync::Wait;
use std::test::Fail;
use std::thread::Threads;
use test_calls::{Status, answer_of};

const DEFERRED: &str =
    r#"{"format":1,"queues":[{"name":"g","family":"graphics"},{"name":"c","family":"compute"},{"name":"t","family":"transfer"}],
"resources":[
{"name":"depth","image":[1920,1080],"texel":"r32"},
{"name":"albedo","image":[1920,1080],"texel":"r32"},
{"name":"normal","image":[1920,1080],"texel":"r32"},
{"name":"rough","image":[1920,1080],"texel":"r32"},
{"name":"motion","image":[1920,1080],"texel":"r32"},
{"name":"shadow","image":[1920,1080],"texel":"r32"},
{"name":"lin","image":[1920,1080],"texel":"r32"},
{"name":"ao0","image":[1920,1080],"texel":"r32"},
{"name":"ao1","image":[1920,1080],"texel":"r32"},
{"name":"occ","image":[1920,1080],"texel":"r32"},
{"name":"li0","image":[1920,1080],"texel":"r32"},
{"name":"li1","image":[1920,1080],"texel":"r32"},
{"name":"li2","image":[1920,1080],"texel":"r32"},
{"name":"sp","image":[1920,1080],"texel":"r32"},
{"name":"hdr","image":[1920,1080],"texel":"r32"},
{"name":"br","image":[1920,1080],"texel":"r32"},
{"name":"h1","image":[960,540],"texel":"r32"},
{"name":"h2","image":[480,270],"texel":"r32"},
{"name":"h3","image":[480,270],"texel":"r32"},
{"name":"e8","image":[480,270],"texel":"r8"},
{"name":"dbg","image":[1920,1080],"texel":"r32"},
{"name":"tm","image":[1920,1080],"texel":"r32"},
{"name":"ldr","image":[1920,1080],"texel":"r8"},
{"name":"exph","buffer":1024},
{"name":"hist","buffer":1024},
{"name":"stats","buffer":2048}
],"passes":[
{"name":"depth","queue":"g","writes":[{"new":"depth"}],"ops":[{"op":"draw","dst":"depth","clear":0,"rects":[{"x":0,"y":0,"width":1920,"height":1080,"value":100}]}]},
{"name":"albedo","queue":"g","writes":[{"new":"albedo"}],"ops":[{"op":"draw","dst":"albedo","clear":3,"rects":[]}]},
{"name":"normal","queue":"g","writes":[{"new":"normal"}],"ops":[{"op":"draw","dst":"normal","clear":5,"rects":[]}]},
{"name":"rough","queue":"g","writes":[{"new":"rough"}],"ops":[{"op":"draw","dst":"rough","clear":7,"rects":[]}]},
{"name":"motion","queue":"g","writes":[{"new":"motion"}],"ops":[{"op":"draw","dst":"motion","clear":1,"rects":[]}]},
{"name":"shadow","queue":"g","writes":[{"new":"shadow"}],"ops":[{"op":"draw","dst":"shadow","clear":2,"rects":[]}]},
{"name":"linear","queue":"c","reads":["depth"],"writes":[{"new":"lin"}],"ops":[{"op":"map","src":"depth","dst":"lin","fun":"shr","value":2}]},
{"name":"ao","queue":"c","reads":["lin","normal"],"writes":[{"new":"ao0"}],"ops":[{"op":"combine","a":"lin","b":"normal","dst":"ao0","fun":"add"}]},
{"name":"aoblur","queue":"c","reads":["ao0"],"writes":[{"new":"ao1"}],"ops":[{"op":"box3","src":"ao0","dst":"ao1"}]},
{"name":"occlude","queue":"c","reads":["ao1"],"writes":[{"new":"occ"}],"ops":[{"op":"map","src":"ao1","dst":"occ","fun":"min","value":20}]},
{"name":"light","queue":"g","reads":["albedo","normal"],"writes":[{"new":"li0"}],"ops":[{"op":"combine","a":"albedo","b":"normal","dst":"li0","fun":"mul"}]},
{"name":"lshadow","queue":"g","reads":["li0","shadow"],"writes":[{"new":"li1"}],"ops":[{"op":"combine","a":"li0","b":"shadow","dst":"li1","fun":"mul"}]},
{"name":"locc","queue":"g","reads":["li1","occ"],"writes":[{"new":"li2"}],"ops":[{"op":"combine","a":"li1","b":"occ","dst":"li2","fun":"add"}]},
{"name":"spec","queue":"g","reads":["rough","normal"],"writes":[{"new":"sp"}],"ops":[{"op":"combine","a":"rough","b":"normal","dst":"sp","fun":"mul"}]},
{"name":"sum","queue":"g","reads":["li2","sp"],"writes":[{"new":"hdr"}],"ops":[{"op":"combine","a":"li2","b":"sp","dst":"hdr","fun":"add"}]},
{"name":"bright","queue":"c","reads":["hdr"],"writes":[{"new":"br"}],"ops":[{"op":"map","src":"hdr","dst":"br","fun":"max","value":40}]},
{"name":"down1","queue":"c","reads":["br"],"writes":[{"new":"h1"}],"ops":[{"op":"halve","src":"br","dst":"h1"}]},
{"name":"down2","queue":"c","reads":["h1"],"writes":[{"new":"h2"}],"ops":[{"op":"halve","src":"h1","dst":"h2"}]},
{"name":"blur","queue":"c","reads":["h2"],"writes":[{"new":"h3"}],"ops":[{"op":"box3","src":"h2","dst":"h3"}]},
{"name":"expose","queue":"c","reads":["h3"],"writes":[{"new":"e8"},{"new":"exph"}],"ops":[{"op":"convert","src":"h3","dst":"e8"},{"op":"histogram","src":"e8","dst":"exph"}]},
{"name":"debug","queue":"g","reads":["motion"],"writes":[{"new":"dbg"}],"ops":[{"op":"map","src":"motion","dst":"dbg","fun":"add","value":9}]},
{"name":"tone","queue":"g","reads":["hdr","br"],"writes":[{"new":"tm"},{"new":"ldr"}],"ops":[{"op":"combine","a":"hdr","b":"br","dst":"tm","fun":"min"},{"op":"convert","src":"tm","dst":"ldr"}]},
{"name":"hist","queue":"c","reads":["ldr"],"writes":[{"new":"hist"}],"ops":[{"op":"histogram","src":"ldr","dst":"hist"}]},
{"name":"stats","queue":"t","reads":["hist","exph"],"writes":[{"new":"stats"}],"ops":[{"op":"fill_buffer","dst":"stats","offset":0,"size":2048,"word":0},{"op":"copy_buffer","src":"hist","dst":"stats","src_offset":0,"dst_offset":0,"size":1024},{"op":"copy_buffer","src":"exph","dst":"stats","src_offset":0,"dst_offset":1024,"size":1024}]}
],"exports":["stats"]}"#;

// A line of the exported tables: counts of texels by their lowest byte, which is 85 for each. There are 1,920 by 1,080 of them in
// the one table, and 480 by 270 in the other.
fn line_at(place: u32) -> &'static str {
    match place {
        10 => "000000000000000000000000000000000000000000a41f000000000000000000\n",
        42 => "000000000000000000000000000000000000000040fa01000000000000000000\n",
        _ => "0000000000000000000000000000000000000000000000000000000000000000\n",
    }
}

fn text(alloc: Global) -> Result<String, AllocError> {
    let mut text = String::from_str(
        alloc,
        "kept 22 culled 2\nculled motion\nculled debug\nexport stats 2048\n",
    )?;
    for place in 0..64 {
        text.push_str(line_at(place))?;
    }
    Ok(text)
}

fn runs(rt: &(impl Threads + Wait + Sync + Abort), alloc: Global, line: &str) -> Result<(), Fail> {
    let text = text(alloc)?;
    gives(rt, alloc, line, DEFERRED, Status::Done, text.as_str())
}

#[test]
fn without_seed(rt: HostRuntime) -> Result<(), Fail> {
    runs(&rt, rt.alloc(), "run")
}

#[test]
fn one_worker_seed_1(rt: HostRuntime) -> Result<(), Fail> {
    runs(&rt, rt.alloc(), "run --workers 1 --tend 1")
}

#[test]
fn one_worker_seed_2(rt: HostRuntime) -> Result<(), Fail> {
    runs(&rt, rt.alloc(), "run --workers 1 --tend 2")
}

#[test]
fn one_worker_seed_3(rt: HostRuntime) -> Result<(), Fail> {
    runs(&rt, rt.alloc(), "run --workers 1 --tend 3")
}

#[test]
fn two_workers_seed_1(rt: HostRuntime) -> Result<(), Fail> {
    runs(&rt, rt.alloc(), "run --workers 2 --tend 1")
}

#[test]
fn two_workers_seed_2(rt: HostRuntime) -> Result<(), Fail> {
    runs(&rt, rt.alloc(), "run --workers 2 --tend 2")
}

#[test]
fn two_workers_seed_3(rt: HostRuntime) -> Result<(), Fail> {
    runs(&rt, rt.alloc(), "run --workers 2 --tend 3")
}

#[test]
fn four_workers_seed_1(rt: HostRuntime) -> Result<(), Fail> {
    runs(&rt, rt.alloc(), "run --workers 4 --tend 1")
}

#[test]
fn four_workers_seed_2(rt: HostRuntime) -> Result<(), Fail> {
    runs(&rt, rt.alloc(), "run --workers 4 --tend 2")
}

#[test]
fn four_workers_seed_3(rt: HostRuntime) -> Result<(), Fail> {
    runs(&rt, rt.alloc(), "run --workers 4 --tend 3")
}

// Whether the trace of a run with four workers and a tender is a run of the submission.
fn is_traced<R: Threads + Wait + Sync>(
    rt: &R,
    alloc: Global,
    submission: &[u8],
) -> Result<bool, NoMemory> {
    let Some(submission) = submission.strip_suffix(b"\n") else {
        return Ok(false);
    };
    let text = text(alloc)?;
    is_audited(
        rt,
        alloc,
        ("run --trace --workers 4 --tend 1", DEFERRED, text.as_str()),
        (submission, "run 405 events\nreadback 0 2048\n"),
    )
}

fn is_run<R: Threads + Wait + Sync>(rt: &R, alloc: Global) -> Result<bool, NoMemory> {
    let compiled = answer_of(rt, alloc, "compile", DEFERRED.as_bytes(), &IdleGate)?;
    is_traced(rt, alloc, compiled.text())
}

#[test]
fn audited(rt: HostRuntime) -> Result<(), Fail> {
    assert!(&rt; is_run(&rt, rt.alloc())?);
    Ok(())
}
