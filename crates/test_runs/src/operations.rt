//! Frames of every operation, run and meant.

use crate::given::gives;
use base::NoMemory;
use std::alloc::{AllocError, Global};
use std::sync::Wait;
use std::test::Fail;
use std::thread::Threads;
use test_calls::{Status, is_given};

// A frame, the text of its exports, and what `run` prints before them.
const FRAMES: [(&str, &str, &str); 12] = [
    // An import, and no passes.
    (
        r#"{"format":1,"queues":[{"name":"g","family":"graphics"},{"name":"c","family":"compute"}],"resources":[{"name":"in","buffer":4,"import":"01020304"}],"passes":[],"exports":["in"]}"#,
        "export in 4\n01020304\n",
        "kept 0 culled 0\n",
    ),
    // A ramp and a map, on two queues.
    (
        r#"{"format":1,"queues":[{"name":"g","family":"graphics"},{"name":"c","family":"compute"}],"resources":[{"name":"im","image":[4,4],"texel":"r32"},{"name":"out","image":[4,4],"texel":"r32"}],"passes":[{"name":"w","queue":"c","writes":[{"new":"im"}],"ops":[{"op":"ramp","dst":"im","base":1,"dx":1,"dy":4}]},{"name":"s","queue":"g","reads":["im"],"writes":[{"new":"out"}],"ops":[{"op":"map","src":"im","dst":"out","fun":"add","value":1}]}],"exports":["out"]}"#,
        "export out 64\n0200000003000000040000000500000006000000070000000800000009000000\n0a0000000b0000000c0000000d0000000e0000000f0000001000000011000000\n",
        "kept 2 culled 0\n",
    ),
    // Rectangles, set and mixed.
    (
        r#"{"format":1,"queues":[{"name":"g","family":"graphics"},{"name":"c","family":"compute"}],"resources":[{"name":"d","image":[4,2],"texel":"r8"}],"passes":[{"name":"p","queue":"g","writes":[{"new":"d"}],"ops":[{"op":"draw","dst":"d","clear":1,"rects":[{"x":1,"y":0,"width":2,"height":2,"value":9}]},{"op":"draw","dst":"d","rects":[{"x":0,"y":0,"width":1,"height":1,"mix":"xor","value":255}]}]}],"exports":["d"]}"#,
        "export d 8\nfe09090101090901\n",
        "kept 1 culled 0\n",
    ),
    // Two layers, in one pass and in two.
    (
        r#"{"format":2,"queues":[{"name":"g","family":"graphics"},{"name":"c","family":"compute"}],"resources":[{"name":"im","image":[2,1],"texel":"r8","layers":2}],"passes":[{"name":"w","queue":"g","writes":[{"new":"im"}],"ops":[{"op":"ramp","dst":"im/0","base":1,"dx":1,"dy":0},{"op":"ramp","dst":"im/1","base":5,"dx":2,"dy":0}]}],"exports":["im"]}"#,
        "export im/0 2\n0102\nexport im/1 2\n0507\n",
        "kept 1 culled 0\n",
    ),
    (
        r#"{"format":2,"queues":[{"name":"g","family":"graphics"},{"name":"c","family":"compute"}],"resources":[{"name":"im","image":[2,1],"texel":"r8","layers":2}],"passes":[{"name":"a","queue":"g","writes":[{"new":"im/0"}],"ops":[{"op":"ramp","dst":"im/0","base":1,"dx":1,"dy":0}]},{"name":"b","queue":"g","writes":[{"new":"im/1"}],"ops":[{"op":"ramp","dst":"im/1","base":5,"dx":2,"dy":0}]}],"exports":["im/1"]}"#,
        "export im/1 2\n0507\n",
        "kept 1 culled 1\nculled a\n",
    ),
    // From one layer to another, exported in another order.
    (
        r#"{"format":2,"queues":[{"name":"g","family":"graphics"},{"name":"c","family":"compute"}],"resources":[{"name":"i","image":[1,1],"texel":"r32","layers":2}],"passes":[{"name":"p","queue":"g","writes":[{"new":"i"}],"ops":[{"op":"clear_image","dst":"i/0","value":5},{"op":"map","src":"i/0","dst":"i/1","fun":"add","value":1}]}],"exports":["i/1","i/0"]}"#,
        "export i/1 4\n06000000\nexport i/0 4\n05000000\n",
        "kept 1 culled 0\n",
    ),
    // An import that a pass changes after another has read it.
    (
        r#"{"format":1,"queues":[{"name":"g","family":"graphics"},{"name":"c","family":"compute"}],"resources":[{"name":"x","buffer":4,"import":"01020304"},{"name":"y","buffer":8}],"passes":[{"name":"a","queue":"g","reads":["x"],"writes":[{"new":"y"}],"ops":[{"op":"fill_buffer","dst":"y","offset":0,"size":8,"word":0},{"op":"copy_buffer","src":"x","dst":"y","src_offset":0,"dst_offset":4,"size":4}]},{"name":"b","queue":"c","writes":[{"change":"x"}],"ops":[{"op":"fill_buffer","dst":"x","offset":0,"size":4,"word":7}]}],"exports":["x","y"]}"#,
        "export x 4\n07000000\nexport y 8\n0000000001020304\n",
        "kept 2 culled 0\n",
    ),
    // A mask of 0 1 0 1 takes 11 and 13 of a ramp of 10 to 13, and 7 of a clear elsewhere; the picture goes behind the
    // first word of a buffer that was filled.
    (
        r#"{"format":1,"queues":[{"name":"g","family":"graphics"}],"resources":[{"name":"m","image":[2,2],"texel":"r8"},{"name":"a","image":[2,2],"texel":"r8"},{"name":"b","image":[2,2],"texel":"r8"},{"name":"out","image":[2,2],"texel":"r8"},{"name":"buf","buffer":8}],"passes":[{"name":"p","queue":"g","writes":[{"new":"m"},{"new":"a"},{"new":"b"},{"new":"out"},{"new":"buf"}],"ops":[{"op":"ramp","dst":"m","base":0,"dx":1,"dy":0},{"op":"ramp","dst":"a","base":10,"dx":1,"dy":2},{"op":"clear_image","dst":"b","value":7},{"op":"select","mask":"m","a":"a","b":"b","dst":"out"},{"op":"fill_buffer","dst":"buf","offset":0,"size":8,"word":1},{"op":"image_to_buffer","src":"out","dst":"buf","offset":4}]}],"exports":["buf"]}"#,
        "export buf 8\n01000000070b070d\n",
        "kept 1 culled 0\n",
    ),
    // A buffer becomes an image, whose first texel goes into the last place of a cleared one.
    (
        r#"{"format":1,"queues":[{"name":"g","family":"graphics"}],"resources":[{"name":"in","buffer":4,"import":"01020304"},{"name":"a","image":[2,2],"texel":"r8"},{"name":"out","image":[2,2],"texel":"r8"}],"passes":[{"name":"p","queue":"g","reads":["in"],"writes":[{"new":"a"},{"new":"out"}],"ops":[{"op":"buffer_to_image","src":"in","dst":"a","offset":0},{"op":"clear_image","dst":"out","value":9},{"op":"copy_image","src":"a","dst":"out","src_x":0,"src_y":0,"dst_x":1,"dst_y":1,"width":1,"height":1}]}],"exports":["out"]}"#,
        "export out 4\n09090901\n",
        "kept 1 culled 0\n",
    ),
    // Clears and what is computed of them: of two, of one and a ramp, in each order, and on.
    (
        r#"{"format":1,"queues":[{"name":"c","family":"graphics"}],"resources":[{"name":"a","image":[2,2],"texel":"r8"},{"name":"b","image":[2,2],"texel":"r8"},{"name":"r","image":[2,2],"texel":"r8"},{"name":"both","image":[2,2],"texel":"r8"},{"name":"second","image":[2,2],"texel":"r8"},{"name":"first","image":[2,2],"texel":"r8"},{"name":"turned","image":[2,2],"texel":"r8"},{"name":"mapped","image":[2,2],"texel":"r8"},{"name":"blurred","image":[2,2],"texel":"r8"},{"name":"drawn","image":[2,2],"texel":"r8"}],"passes":[{"name":"p","queue":"c","writes":[{"new":"a"},{"new":"b"},{"new":"r"},{"new":"both"},{"new":"second"},{"new":"first"},{"new":"turned"},{"new":"mapped"},{"new":"blurred"},{"new":"drawn"}],"ops":[{"op":"clear_image","dst":"a","value":517},{"op":"draw","dst":"b","clear":9,"rects":[]},{"op":"ramp","dst":"r","base":1,"dx":1,"dy":2},{"op":"combine","a":"a","b":"b","dst":"both","fun":"sub"},{"op":"combine","a":"r","b":"b","dst":"second","fun":"shl"},{"op":"combine","a":"b","b":"r","dst":"first","fun":"mul"},{"op":"combine","a":"b","b":"r","dst":"turned","fun":"sub"},{"op":"map","src":"both","dst":"mapped","fun":"shr","value":1},{"op":"box3","src":"mapped","dst":"blurred"},{"op":"clear_image","dst":"drawn","value":3},{"op":"draw","dst":"drawn","rects":[{"x":1,"y":0,"width":1,"height":2,"value":7}]}]}],"exports":["both","second","first","turned","mapped","blurred","drawn"]}"#,
        "export both 4\nfcfcfcfc\nexport second 4\n02040608\nexport first 4\n09121b24\nexport turned 4\n08070605\nexport mapped 4\n7e7e7e7e\nexport blurred 4\n7e7e7e7e\nexport drawn 4\n03070307\n",
        "kept 1 culled 0\n",
    ),
    // What a clear becomes in other texels, blurred and halved; one rectangle that sets all, one that mixes and one that sets half.
    (
        r#"{"format":1,"queues":[{"name":"g","family":"graphics"}],"resources":[{"name":"a","image":[4,2],"texel":"r32"},{"name":"low","image":[4,2],"texel":"r8"},{"name":"wide","image":[4,2],"texel":"r32"},{"name":"blurred","image":[4,2],"texel":"r32"},{"name":"half","image":[2,1],"texel":"r32"},{"name":"mixed","image":[2,1],"texel":"r32"},{"name":"most","image":[2,1],"texel":"r32"}],"passes":[{"name":"p","queue":"g","writes":[{"new":"a"},{"new":"low"},{"new":"wide"},{"new":"blurred"},{"new":"half"},{"new":"mixed"},{"new":"most"}],"ops":[{"op":"draw","dst":"a","clear":9,"rects":[{"x":0,"y":0,"width":4,"height":2,"value":773}]},{"op":"convert","src":"a","dst":"low"},{"op":"convert","src":"low","dst":"wide"},{"op":"box3","src":"a","dst":"blurred"},{"op":"halve","src":"blurred","dst":"half"},{"op":"draw","dst":"mixed","clear":6,"rects":[{"x":0,"y":0,"width":2,"height":1,"mix":"xor","value":3}]},{"op":"draw","dst":"most","clear":6,"rects":[{"x":0,"y":0,"width":1,"height":1,"value":4294967295}]}]}],"exports":["low","wide","half","mixed","most"]}"#,
        "export low 8\n0505050505050505\nexport wide 32\n0500000005000000050000000500000005000000050000000500000005000000\nexport half 8\n0503000005030000\nexport mixed 8\n0500000005000000\nexport most 8\nffffffff06000000\n",
        "kept 1 culled 0\n",
    ),
    // Digits of both cases.
    (
        r#"{"format":1,"queues":[{"name":"g","family":"graphics"},{"name":"c","family":"compute"}],"resources":[{"name":"b","buffer":1,"import":"aF"}],"passes":[],"exports":["b"]}"#,
        "export b 1\naf\n",
        "kept 0 culled 0\n",
    ),
];

#[test]
fn operations(rt: HostRuntime) -> Result<(), Fail> {
    let alloc = rt.alloc();
    for (file, exports, kept) in &FRAMES {
        let text = format!(in alloc; "{kept}{exports}")?;
        gives(&rt, alloc, "run", file, Status::Done, text.as_str())?;
        gives(&rt, alloc, "meaning", file, Status::Done, exports)?;
    }
    Ok(())
}

// So many passes, none of which does anything.
fn passes(alloc: Global, count: u32) -> Result<String, AllocError> {
    let mut passes = String::new(alloc);
    for k in 0..count {
        let comma = if k == 0 { "" } else { "," };
        write!(passes, "{comma}{{\"name\":\"p{k}\",\"queue\":\"g\"}}")?;
    }
    Ok(passes)
}

fn frame(alloc: Global, count: u32) -> Result<String, AllocError> {
    let front =
        "{\"format\":1,\"queues\":[{\"name\":\"g\",\"family\":\"transfer\"}],\"resources\":[],\"passes\":[";
    let passes = passes(alloc, count)?;
    format!(in alloc; "{front}{passes}],\"exports\":[]}}")
}

// That all are culled.
fn culled(alloc: Global, count: u32) -> Result<String, AllocError> {
    let mut text = format!(in alloc; "kept 0 culled {count}\n")?;
    for k in 0..count {
        write!(text, "culled p{k}\n")?;
    }
    Ok(text)
}

fn run_passes<R: Threads + Wait + Sync>(
    rt: &R,
    alloc: Global,
    count: u32,
    status: Status,
    text: &str,
) -> Result<bool, NoMemory> {
    let file = frame(alloc, count)?;
    is_given(rt, alloc, "run", file.as_str(), status, text)
}

// As many passes as there can be, and one more.
#[test]
fn many_passes(rt: HostRuntime) -> Result<(), Fail> {
    let alloc = rt.alloc();
    let text = culled(alloc, 256)?;
    assert!(&rt; run_passes(&rt, alloc, 256, Status::Done, text.as_str())?);
    let fault = "fault F4 Passes $.passes\n";
    assert!(&rt; run_passes(&rt, alloc, 257, Status::Refused, fault)?);
    Ok(())
}
