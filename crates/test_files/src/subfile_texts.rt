//! Canonical texts, written from the format without this program.

use crate::subfile_judge::{judge_bytes, judge_shape};
use file_program::{read_program, write_program};
use std::test::Fail;

// The compiled program of a fill that is read back.
const ONE_FILL: &str =
    r#"{"format":2,"memories":[{"size":16},{"size":16}],"pieces":[{"buffer":16,"memory":0,"offset":0},{"buffer":16,"memory":1,"offset":0}],"queues":[{"batches":[{"items":[{"dst":0,"item":"command","offset":0,"op":"fill_buffer","size":16,"word":7},{"dst_access":"TRANSFER_READ","dst_stage":"COPY","item":"buffer","piece":0,"src_access":"TRANSFER_WRITE","src_stage":"CLEAR"},{"dst":1,"dst_offset":0,"item":"command","op":"copy_buffer","size":16,"src":0,"src_offset":0},{"dst_access":"HOST_READ","dst_stage":"HOST","item":"buffer","piece":1,"src_access":"TRANSFER_WRITE","src_stage":"COPY"}],"signal":{"stage":"ALL_COMMANDS","value":1},"waits":[]}],"family":"graphics"}],"readbacks":[1]}"#;

// A file, and the canonical text of its program.
const TEXTS: [(&str, &str); 2] = [
    (ONE_FILL, ONE_FILL),
    (
        r#"{"readbacks":[],"queues":[{"family":"compute","batches":[{},{"items":[{"item":"global","src_stage":"CLEAR|COPY|COPY","src_access":"SHADER_STORAGE_WRITE|SHADER_READ","dst_stage":"","dst_access":""},{"item":"image","piece":1,"from":"UNDEFINED","to":"GENERAL","src_stage":"HOST","src_access":"","dst_stage":"HOST","dst_access":""},{"item":"release","piece":1,"from_family":"compute","to_family":"graphics","from":"GENERAL","to":"GENERAL","src_stage":"HOST","src_access":"","dst_stage":"HOST","dst_access":""},{"item":"acquire","piece":0,"from_family":"graphics","to_family":"transfer","src_stage":"HOST","src_access":"","dst_stage":"HOST","dst_access":""},{"item":"command","op":"draw","dst":2,"rects":[{"x":0,"y":0,"width":1,"height":1,"value":5}]}],"waits":[{"queue":0,"value":0,"stage":"ALL_TRANSFER"}],"signal":{"value":18446744073709551615,"stage":""}}]}],"pieces":[{"buffer":4294967295,"memory":7,"offset":3,"sharing":"exclusive"},{"image":[2,3],"texel":"r8","layers":2,"memory":0,"offset":3,"sharing":"concurrent"},{"image":[1,1],"texel":"r32","memory":0,"offset":4}],"memories":[{"import":"00fFA07e"},{"size":0}],"format":2}"#,
        r#"{"format":2,"memories":[{"import":"00ffa07e"},{"size":0}],"pieces":[{"buffer":4294967295,"memory":7,"offset":3},{"image":[2,3],"memory":0,"offset":3,"sharing":"concurrent","texel":"r8"},{"image":[2,3],"memory":0,"offset":256,"sharing":"concurrent","texel":"r8"},{"image":[1,1],"memory":0,"offset":4,"texel":"r32"}],"queues":[{"batches":[{"items":[],"waits":[]},{"items":[{"dst_access":"","dst_stage":"","item":"global","src_access":"SHADER_READ|SHADER_STORAGE_WRITE","src_stage":"COPY|CLEAR"},{"dst_access":"","dst_stage":"HOST","from":"UNDEFINED","item":"image","piece":1,"src_access":"","src_stage":"HOST","to":"GENERAL"},{"dst_access":"","dst_stage":"HOST","from":"GENERAL","from_family":"compute","item":"release","piece":1,"src_access":"","src_stage":"HOST","to":"GENERAL","to_family":"graphics"},{"dst_access":"","dst_stage":"HOST","from_family":"graphics","item":"acquire","piece":0,"src_access":"","src_stage":"HOST","to_family":"transfer"},{"dst":2,"item":"command","op":"draw","rects":[{"height":1,"mix":"set","value":5,"width":1,"x":0,"y":0}]}],"signal":{"stage":"","value":18446744073709551615},"waits":[{"queue":0,"stage":"ALL_TRANSFER","value":0}]}],"family":"compute"}],"readbacks":[]}"#,
    ),
];

#[test]
fn canonical_texts(rt: HostRuntime) -> Result<(), Fail> {
    let alloc = rt.alloc();
    assert!(rt; judge_shape(alloc, ONE_FILL.as_bytes())?.as_str() == "shaped");
    for (file, canonical) in &TEXTS {
        let Ok(program) = read_program(alloc, file.as_bytes()) else {
            return Err(Fail::new("no program"));
        };
        let text = write_program(alloc, &program)?;
        assert!(rt; text.as_slice() == canonical.as_bytes(), "{canonical}");
    }
    Ok(())
}

#[test]
fn no_prefix_is_a_file(rt: HostRuntime) -> Result<(), Fail> {
    let alloc = rt.alloc();
    let bytes = ONE_FILL.as_bytes();
    for length in 0..bytes.len() {
        let found = judge_bytes(alloc, &bytes[..length])?;
        assert!(rt; found.as_str() == "G10 $", "{length}: {found}");
    }
    Ok(())
}
