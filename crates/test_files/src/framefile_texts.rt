//! Canonical texts, written by hand from the format.

use file_frame::{read_frame, write_frame};
use std::test::Fail;

// A file, and the canonical text of its frame.
const TEXTS: [(&str, &str); 3] = [
    (
        r#"{"format":1,"queues":[{"name":"g","family":"graphics"}],"resources":[{"name":"b","buffer":16}],"passes":[{"name":"p","queue":"g","writes":[{"new":"b"}],"ops":[{"op":"fill_buffer","dst":"b","offset":0,"size":16,"word":7}]}],"exports":["b"]}"#,
        r#"{"exports":["b"],"format":2,"passes":[{"name":"p","ops":[{"dst":"b","offset":0,"op":"fill_buffer","size":16,"word":7}],"queue":"g","reads":[],"side_effect":false,"writes":[{"new":"b"}]}],"queues":[{"family":"graphics","name":"g"}],"resources":[{"buffer":16,"name":"b"}]}"#,
    ),
    (
        r#"{"format":2,"queues":[{"name":"g","family":"compute"}],"resources":[{"name":"b","buffer":4,"import":"00fFA07e"},{"name":"im","image":[2,3],"texel":"r8","layers":8,"sharing":"concurrent"}],"passes":[{"name":"p","queue":"g","reads":["b","im/7"],"writes":[{"new":"im/0"}],"ops":[{"op":"draw","dst":"im/0","clear":1,"rects":[{"x":0,"y":0,"width":1,"height":1,"mix":"xor","value":5}]}],"side_effect":true}],"exports":["im"]}"#,
        r#"{"exports":["im"],"format":2,"passes":[{"name":"p","ops":[{"clear":1,"dst":"im/0","op":"draw","rects":[{"height":1,"mix":"xor","value":5,"width":1,"x":0,"y":0}]}],"queue":"g","reads":["b","im/7"],"side_effect":true,"writes":[{"new":"im/0"}]}],"queues":[{"family":"compute","name":"g"}],"resources":[{"buffer":4,"import":"00ffa07e","name":"b"},{"image":[2,3],"layers":8,"name":"im","sharing":"concurrent","texel":"r8"}]}"#,
    ),
    (
        r#"{"exports":[],"passes":[{"ops":[{"rects":[{"value":5,"height":1,"width":1,"y":0,"x":0}],"dst":"im","op":"draw"}],"writes":[{"change":"im"}],"queue":"g","name":"p"}],"resources":[{"sharing":"exclusive","layers":1,"texel":"r32","image":[1,2],"name":"im"},{"sharing":"concurrent","import":"","buffer":1,"name":"b"}],"queues":[],"format":2}"#,
        r#"{"exports":[],"format":2,"passes":[{"name":"p","ops":[{"dst":"im","op":"draw","rects":[{"height":1,"mix":"set","value":5,"width":1,"x":0,"y":0}]}],"queue":"g","reads":[],"side_effect":false,"writes":[{"change":"im"}]}],"queues":[],"resources":[{"image":[1,2],"name":"im","texel":"r32"},{"buffer":1,"import":"","name":"b","sharing":"concurrent"}]}"#,
    ),
];

#[test]
fn canonical_texts(rt: HostRuntime) -> Result<(), Fail> {
    let alloc = rt.alloc();
    for (file, canonical) in &TEXTS {
        let Ok(frame) = read_frame(alloc, file.as_bytes()) else {
            return Err(Fail::new("no frame"));
        };
        let text = write_frame(alloc, &frame)?;
        assert!(rt; text.as_slice() == canonical.as_bytes(), "{canonical}");
    }
    Ok(())
}
