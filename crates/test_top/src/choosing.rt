//! Passes on the queues that are chosen for them.

use crate::calls::FILL;
use crate::given::gives;
use std::test::Fail;
use test_calls::Status;

// Frames, the lines of `auto --cost`, and the texts of `auto`.
const FRAMES: [(&str, &str, &str); 2] = [
    // One pass, which stays.
    (
        FILL,
        "cost 2 2\n",
        "{\"exports\":[\"b\"],\"format\":2,\"passes\":[{\"name\":\"p\",\"ops\":[{\"dst\":\"b\",\"offset\":0,\"op\":\"fill_buffer\",\"size\":16,\"word\":7}],\"queue\":\"g\",\"reads\":[],\"side_effect\":false,\"writes\":[{\"new\":\"b\"}]}],\"queues\":[{\"family\":\"graphics\",\"name\":\"g\"}],\"resources\":[{\"buffer\":16,\"name\":\"b\"}]}\n",
    ),
    // Two passes that need nothing of each other: the first one moves, and then the second has its queue alone.
    (
        r#"{"format":1,"queues":[{"name":"g","family":"graphics"},{"name":"c","family":"compute"}],"resources":[{"name":"x","image":[2,2],"texel":"r32"},{"name":"y","image":[2,2],"texel":"r32"}],"passes":[{"name":"one","queue":"g","writes":[{"new":"x"}],"ops":[{"op":"ramp","dst":"x","base":1,"dx":1,"dy":2}]},{"name":"two","queue":"g","writes":[{"new":"y"}],"ops":[{"op":"ramp","dst":"y","base":5,"dx":1,"dy":2}]}],"exports":["x","y"]}"#,
        "cost 4 2\n",
        "{\"exports\":[\"x\",\"y\"],\"format\":2,\"passes\":[{\"name\":\"one\",\"ops\":[{\"base\":1,\"dst\":\"x\",\"dx\":1,\"dy\":2,\"op\":\"ramp\"}],\"queue\":\"c\",\"reads\":[],\"side_effect\":false,\"writes\":[{\"new\":\"x\"}]},{\"name\":\"two\",\"ops\":[{\"base\":5,\"dst\":\"y\",\"dx\":1,\"dy\":2,\"op\":\"ramp\"}],\"queue\":\"g\",\"reads\":[],\"side_effect\":false,\"writes\":[{\"new\":\"y\"}]}],\"queues\":[{\"family\":\"graphics\",\"name\":\"g\"},{\"family\":\"compute\",\"name\":\"c\"}],\"resources\":[{\"image\":[2,2],\"name\":\"x\",\"texel\":\"r32\"},{\"image\":[2,2],\"name\":\"y\",\"texel\":\"r32\"}]}\n",
    ),
];

#[test]
fn costs(rt: HostRuntime) -> Result<(), Fail> {
    let alloc = rt.alloc();
    for (file, text, _) in &FRAMES {
        gives(&rt, alloc, "auto --cost", file, Status::Done, text)?;
    }
    Ok(())
}

#[test]
fn chooses(rt: HostRuntime) -> Result<(), Fail> {
    let alloc = rt.alloc();
    for (file, _, text) in &FRAMES {
        gives(&rt, alloc, "auto", file, Status::Done, text)?;
    }
    Ok(())
}
