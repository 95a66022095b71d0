use base::{Leg, List, Name, Path};
use file_json::*;
use serde_json::{Map, Value};
use std::alloc::Global;
use std::fmt::Write;
use std::str;
use std::test::Fail;

#[derive(Drop)]
struct Sample {
    name: Name,
    count: u32,
    sizes: Option<List<u32>>,
}

fn read_sample(alloc: Global, at: &Location<'_>, value: &Value) -> Result<Sample, ReadError> {
    object(alloc, at, value)?;
    let name = required::<NameForm>(alloc, at, "name", value)?;
    let count = required::<RangeForm<1, 8>>(alloc, at, "count", value)?;
    let sizes = optional::<ListForm<NumberForm>>(alloc, at, "sizes", value)?;
    others(alloc, at, &["name", "count", "sizes"], value)?;
    Ok(Sample { name, count, sizes })
}

fn show_sample(alloc: Global, sample: Sample) -> Result<String, Fail> {
    let mut text = format!(in alloc; "{} {}", sample.name.as_str(), sample.count)?;
    if let Some(sizes) = sample.sizes {
        write!(text, " {:?}", sizes.as_slice())?;
    }
    Ok(text)
}

fn show_path(alloc: Global, path: Path) -> Result<String, Fail> {
    let mut text = String::from_str(alloc, "at ")?;
    for leg in path.as_slice() {
        match leg {
            Leg::Member(name) => write!(text, "/{}", str::from_utf8(name.as_slice())?)?,
            Leg::Position(at) => write!(text, "/{at}")?,
        }
    }
    Ok(text)
}

// What is read of the bytes, or where the first fault is.
fn answer(alloc: Global, bytes: &[u8]) -> Result<String, Fail> {
    match read_json(alloc, bytes) {
        Ok(value) => match read_sample(alloc, &Location::Top, &value) {
            Ok(sample) => show_sample(alloc, sample),
            Err(ReadError::Refused(path)) => show_path(alloc, path),
            Err(ReadError::NoMemory) => Ok(String::from_str(alloc, "no memory")?),
        },
        Err(JsonError::NotJson) => Ok(String::from_str(alloc, "no JSON")?),
        Err(JsonError::NoMemory) => Ok(String::from_str(alloc, "no memory")?),
    }
}

fn nested(alloc: Global, depth: usize) -> Result<Vec<u8>, Fail> {
    let mut bytes = vec![in alloc; b'['; depth]?;
    bytes.extend_from_slice(vec![in alloc; b']'; depth]?.as_slice())?;
    Ok(bytes)
}

// Bytes, and what is read of them.
const ANSWERS: [(&[u8], &str); 26] = [
    (br#"{"name":"a.b-c_9","count":1}"#, "a.b-c_9 1"),
    (br#" {"sizes":[], "count":8, "name":"a"} "#, "a 8 []"),
    (
        br#"{"name":"a","count":2,"sizes":[0,4294967295]}"#,
        "a 2 [0, 4294967295]",
    ),
    (br#"{"name":"a","count":2,"count":3}"#, "a 3"),
    (br#"{"name":"\u0061","count":2}"#, "a 2"),
    (b"[]", "at "),
    (b"null", "at "),
    (b"{}", "at /name"),
    (br#"{"name":"a","zz":1}"#, "at /count"),
    (br#"{"name":"","count":2}"#, "at /name"),
    (br#"{"name":5,"count":2}"#, "at /name"),
    (br#"{"name":"a","count":0}"#, "at /count"),
    (br#"{"name":"a","count":9}"#, "at /count"),
    (br#"{"name":"a","count":"2"}"#, "at /count"),
    (br#"{"name":"a","count":-0}"#, "at /count"),
    (br#"{"name":"a","count":1.0}"#, "at /count"),
    (br#"{"name":"a","count":1e0}"#, "at /count"),
    (br#"{"name":"a","count":2,"sizes":null}"#, "at /sizes"),
    (
        br#"{"name":"a","count":2,"sizes":[1,-1,"x"]}"#,
        "at /sizes/1",
    ),
    (
        br#"{"name":"a","count":2,"sizes":[4294967296]}"#,
        "at /sizes/0",
    ),
    (br#"{"name":"a","count":2,"zz":1,"Size":1}"#, "at /Size"),
    (br#"{"name":"a","count":2,"":1}"#, "at /"),
    (b"", "no JSON"),
    (b"{\"name\":\"\xff\"}", "no JSON"),
    (b"{} {}", "no JSON"),
    (b"01", "no JSON"),
];

#[test]
fn reads(rt: HostRuntime) -> Result<(), Fail> {
    let alloc = rt.alloc();
    for (bytes, want) in &ANSWERS {
        let found = answer(alloc, bytes)?;
        assert!(rt; found.as_str() == *want, "{found} is not {want}");
    }
    Ok(())
}

#[test]
fn nests(rt: HostRuntime) -> Result<(), Fail> {
    let alloc = rt.alloc();
    let deepest = answer(alloc, nested(alloc, 127)?.as_slice())?;
    let deeper = answer(alloc, nested(alloc, 128)?.as_slice())?;
    assert!(rt; deepest.as_str() == "at " && deeper.as_str() == "no JSON");
    Ok(())
}

fn written_list(alloc: Global) -> Result<List<u8>, Fail> {
    let list = List::from_slice(alloc, &[7, 0, 4294967295])?;
    <ListForm<NumberForm>>::look(&list);
    Ok(write_json::<ListForm<NumberForm>>(alloc, &list)?)
}

fn written_name(alloc: Global) -> Result<String, Fail> {
    let name = Name::read(b"a.b-c_9").ok_or("no name")?;
    NameForm::look(&name);
    Ok(<NameForm as Writer>::write(alloc, &name)?.to_string(alloc)?)
}

#[test]
fn writes(rt: HostRuntime) -> Result<(), Fail> {
    let alloc = rt.alloc();
    let list = written_list(alloc)?;
    let number = <NumberForm as Writer>::write(alloc, &4294967295)?.to_string(alloc)?;
    let name = written_name(alloc)?;
    assert!(rt; list.as_slice() == b"[7,0,4294967295]".as_slice());
    assert!(rt; number.as_str() == "4294967295" && name.as_str() == "\"a.b-c_9\"");
    Ok(())
}

#[test]
fn members_in_byte_order(rt: HostRuntime) -> Result<(), Fail> {
    let alloc = rt.alloc();
    let members = with_text(alloc, Map::new(alloc), "b", "x")?;
    let members = with_member(alloc, members, "a", Value::from(1u32))?;
    let members = with_text(alloc, members, "b", "y")?;
    let text = Value::Object(members).to_string(alloc)?;
    assert!(rt; text.as_str() == r#"{"a":1,"b":"y"}"#);
    Ok(())
}
