//! Operations over names, by texts written out by hand.

use base::{Leg, Path};
use file_json::{Location, NameForm, ReadError, Reader, Typed, Writer};
use file_ops::OpForm;
use serde_json::Value;
use std::alloc::{AllocError, Global};
use std::test::Fail;

// Each text has its members in the order of examination, and beside it stands its canonical text.
const READ_AND_WRITTEN: [(&str, &str); 16] = [
    (
        r#"{"op": "fill_buffer", "dst": "a", "offset": 4, "size": 8, "word": 4294967295}"#,
        r#"{"dst":"a","offset":4,"op":"fill_buffer","size":8,"word":4294967295}"#,
    ),
    (
        r#"{"op": "clear_image", "dst": "a", "value": 7}"#,
        r#"{"dst":"a","op":"clear_image","value":7}"#,
    ),
    (
        r#"{"op": "copy_buffer", "src": "a", "dst": "b", "src_offset": 4, "dst_offset": 8, "size": 12}"#,
        r#"{"dst":"b","dst_offset":8,"op":"copy_buffer","size":12,"src":"a","src_offset":4}"#,
    ),
    (
        r#"{"op": "copy_image", "src": "a", "dst": "b", "src_x": 1, "src_y": 2, "dst_x": 3, "dst_y": 4, "width": 5, "height": 6}"#,
        r#"{"dst":"b","dst_x":3,"dst_y":4,"height":6,"op":"copy_image","src":"a","src_x":1,"src_y":2,"width":5}"#,
    ),
    (
        r#"{"op": "buffer_to_image", "src": "a", "dst": "b", "offset": 4}"#,
        r#"{"dst":"b","offset":4,"op":"buffer_to_image","src":"a"}"#,
    ),
    (
        r#"{"op": "image_to_buffer", "src": "a", "dst": "b", "offset": 4}"#,
        r#"{"dst":"b","offset":4,"op":"image_to_buffer","src":"a"}"#,
    ),
    (
        r#"{"op": "ramp", "dst": "a", "base": 1, "dx": 2, "dy": 3}"#,
        r#"{"base":1,"dst":"a","dx":2,"dy":3,"op":"ramp"}"#,
    ),
    (
        r#"{"op": "map", "src": "a", "dst": "b", "fun": "shl", "value": 3}"#,
        r#"{"dst":"b","fun":"shl","op":"map","src":"a","value":3}"#,
    ),
    (
        r#"{"op": "combine", "a": "x", "b": "y", "dst": "z", "fun": "sub"}"#,
        r#"{"a":"x","b":"y","dst":"z","fun":"sub","op":"combine"}"#,
    ),
    (
        r#"{"op": "select", "mask": "m", "a": "x", "b": "y", "dst": "z"}"#,
        r#"{"a":"x","b":"y","dst":"z","mask":"m","op":"select"}"#,
    ),
    (
        r#"{"op": "convert", "src": "a", "dst": "b"}"#,
        r#"{"dst":"b","op":"convert","src":"a"}"#,
    ),
    (
        r#"{"op": "box3", "src": "a", "dst": "b"}"#,
        r#"{"dst":"b","op":"box3","src":"a"}"#,
    ),
    (
        r#"{"op": "halve", "src": "a", "dst": "b"}"#,
        r#"{"dst":"b","op":"halve","src":"a"}"#,
    ),
    (
        r#"{"op": "histogram", "src": "a", "dst": "b"}"#,
        r#"{"dst":"b","op":"histogram","src":"a"}"#,
    ),
    (
        r#"{"op": "draw", "dst": "a", "rects": [{"x": 1, "y": 2, "width": 3, "height": 4, "value": 5}]}"#,
        r#"{"dst":"a","op":"draw","rects":[{"height":4,"mix":"set","value":5,"width":3,"x":1,"y":2}]}"#,
    ),
    (
        r#"{"op": "draw", "dst": "a", "clear": 0, "rects": [{"x": 1, "y": 2, "width": 3, "height": 4, "mix": "xor", "value": 5}]}"#,
        r#"{"clear":0,"dst":"a","op":"draw","rects":[{"height":4,"mix":"xor","value":5,"width":3,"x":1,"y":2}]}"#,
    ),
];

// Each text is refused at the place beside it.
const REFUSED: [(&str, &str); 12] = [
    (r#"["op"]"#, "$"),
    (r#"{"dst": "a", "value": 7}"#, "$.op"),
    (r#"{"op": "Box3", "src": "a", "dst": "b"}"#, "$.op"),
    (r#"{"op": "copy_buffer", "dst": "", "src": ""}"#, "$.src"),
    (r#"{"op": "clear_image", "dst": "a"}"#, "$.value"),
    (
        r#"{"op": "clear_image", "dst": "a", "value": 4294967296}"#,
        "$.value",
    ),
    (
        r#"{"op": "clear_image", "dst": "a", "value": 7, "size": 8, "item": "command"}"#,
        "$.item",
    ),
    (
        r#"{"op": "map", "src": "a", "dst": "b", "fun": "set", "value": 3}"#,
        "$.fun",
    ),
    (
        r#"{"op": "draw", "dst": "a", "clear": null, "rects": 0}"#,
        "$.clear",
    ),
    (r#"{"op": "draw", "dst": "a"}"#, "$.rects"),
    (
        r#"{"op": "draw", "dst": "a", "rects": [{"x": 1, "y": 2, "width": 3, "height": 4, "value": 5}, {"x": 1, "y": 2, "width": 3, "height": 4}]}"#,
        "$.rects[1].value",
    ),
    (
        r#"{"op": "draw", "dst": "a", "rects": [{"x": 1, "y": 2, "width": 3, "height": 4, "mix": "add", "value": 5}]}"#,
        "$.rects[0].mix",
    ),
];

fn again(alloc: Global, text: &str) -> Result<String, Fail> {
    let json = Value::from_str(alloc, text)?;
    let op = OpForm::<NameForm>::read(alloc, &Location::Top, &json)?;
    OpForm::<NameForm>::look(&op);
    let written = OpForm::<NameForm>::write(alloc, &op)?;
    Ok(written.to_string(alloc)?)
}

fn first_fault(alloc: Global, text: &str) -> Result<Path, Fail> {
    let json = Value::from_str(alloc, text)?;
    match OpForm::<NameForm>::read(alloc, &Location::Top, &json) {
        Err(ReadError::Refused(found)) => Ok(found),
        _ => Err(Fail::new("no fault")),
    }
}

#[test]
fn each_operation_is_read_and_written(rt: HostRuntime) -> Result<(), Fail> {
    let alloc = rt.alloc();
    for (text, canonical) in &READ_AND_WRITTEN {
        let written = again(alloc, text)?;
        assert!(rt; written.as_str() == *canonical, "{canonical}");
    }
    Ok(())
}

#[test]
fn the_first_fault_is_told(rt: HostRuntime) -> Result<(), Fail> {
    let alloc = rt.alloc();
    for (text, path) in &REFUSED {
        let found = first_fault(alloc, text)?;
        let written = written_path(alloc, &found)?;
        assert!(rt; written.as_slice() == path.as_bytes(), "at {path}");
    }
    Ok(())
}

fn written_path(alloc: Global, path: &Path) -> Result<Vec<u8>, AllocError> {
    let mut text = Vec::from_slice(alloc, b"$")?;
    for leg in path.as_slice() {
        match leg {
            Leg::Member(name) => {
                text.push(b'.')?;
                text.extend_from_slice(name.as_slice())?;
            }
            Leg::Position(at) => text.extend_from_slice(format!(in alloc; "[{at}]")?.as_bytes())?,
        }
    }
    Ok(text)
}
