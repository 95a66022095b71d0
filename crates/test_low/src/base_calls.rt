use base::*;
use base_io::*;
use std::alloc::{AllocError, Global};
use std::io;
use std::io::{Read, Write};
use std::process::Abort;
use std::test::Fail;

fn bytes(alloc: Global, text: &[u8]) -> Result<List<u8>, AllocError> {
    Ok(List::from_vec(text.to_vec(alloc)?))
}

fn calls(alloc: Global, list: &[u32]) -> Result<List<u32>, AllocError> {
    Ok(List::from_vec(list.to_vec(alloc)?))
}

// Texts, and whether they are names.
const NAMES: [(&str, bool); 12] = [
    ("", false),
    ("a", true),
    ("abcdefghijklmnopqrstuvwxyz_-.019", true),
    ("abcdefghijklmnopqrstuvwxyz_-.0192", false),
    ("Az", true),
    ("_", true),
    ("-", true),
    (".", true),
    ("7", true),
    ("a b", false),
    ("a/b", false),
    ("a\u{e4}", false),
];

// Whether a text is a name, and reads as itself.
fn is_name(text: &str) -> bool {
    match Name::read(text.as_bytes()) {
        Some(name) => name.as_bytes() == text.as_bytes() && name.as_str() == text && name == name,
        None => false,
    }
}

fn names(rt: &impl Abort) {
    for (text, wanted) in &NAMES {
        assert!(rt; is_name(text) == *wanted, "{text}");
    }
}

// The numbers 1 to 5, after 9 has taken the place of the second.
fn changed(alloc: Global) -> Result<List<u32>, NoMemory> {
    let mut list = List::from_slice(alloc, &[1, 2])?;
    list.push(3)?;
    list.extend_from_slice(&[4, 5])?;
    if list.len() == 5 {
        list.set(1, 9);
    }
    Ok(list)
}

fn lists(rt: &impl Abort, alloc: Global) -> Result<(), NoMemory> {
    let mut list = changed(alloc)?;
    let last = list.pop();
    assert!(rt; last == Some(5) && !list.is_empty());
    let rest = list.copy(alloc)?.into_vec();
    assert!(rt; rest.as_slice() == [1, 9, 3, 4].as_slice());
    assert!(rt; List::<u32>::new(alloc).pop() == None);
    Ok(())
}

// What each read of four bytes gives, and the first bytes that are there after it.
fn reads(rt: &impl Abort, source: &mut impl Source, wants: &[(ReadResult, &str)]) {
    for (want, front) in wants {
        let mut into = [0u8; 4];
        let taken = source.read(&mut into);
        assert!(rt;
            taken == *want && into.starts_with(front.as_bytes()),
            "{front}"
        );
    }
}

// What each write of these four bytes does.
fn writes(rt: &impl Abort, sink: &mut impl Sink, wants: &[Put]) {
    for (at, want) in wants.iter().enumerate() {
        assert!(rt; sink.write(b"wxyz") == *want, "write {at}");
    }
}

// Fails at its first read, gives its bytes at the second, and is at its end then.
#[derive(Drop)]
struct FailsFirst {
    calls: u32,
}

impl Read for FailsFirst {
    fn read(&mut self, buf: &mut [u8]) -> io::Result<usize> {
        self.calls = self.calls.saturating_add(1);
        if self.calls == 1 {
            return Err(io::ErrorKind::Other.into());
        }
        if self.calls > 2 || buf.is_empty() {
            return Ok(0);
        }
        buf[0] = b'r';
        Ok(1)
    }
}

impl Write for FailsFirst {
    fn write(&mut self, buf: &[u8]) -> io::Result<usize> {
        self.calls = self.calls.saturating_add(1);
        match self.calls {
            1 => Err(io::ErrorKind::Other.into()),
            2 => Ok(0),
            _ => Ok(buf.len()),
        }
    }

    fn flush(&mut self) -> io::Result<()> {
        Ok(())
    }
}

const IN_MEMORY: [(ReadResult, &str); 6] = [
    (ReadResult::Got(2), "he"),
    (ReadResult::Failed, ""),
    (ReadResult::Got(2), "ll"),
    (ReadResult::Got(1), "o"),
    (ReadResult::End, ""),
    (ReadResult::End, ""),
];

const STEADY: [(ReadResult, &str); 3] = [
    (ReadResult::Got(4), "hell"),
    (ReadResult::Got(1), "o"),
    (ReadResult::End, ""),
];

const FAILING: [(ReadResult, &str); 3] = [
    (ReadResult::Failed, ""),
    (ReadResult::Got(1), "r"),
    (ReadResult::End, ""),
];

fn sources(rt: &impl Abort, alloc: Global) -> Result<(), NoMemory> {
    let mut source = MemorySource::new(bytes(alloc, b"hello")?, 2, calls(alloc, &[2])?);
    reads(rt, &mut source, &IN_MEMORY);
    reads(
        rt,
        &mut SteadySource::new(bytes(alloc, b"hello")?, 9),
        &STEADY,
    );
    reads(rt, &mut ReadSource::new(FailsFirst { calls: 0 }), &FAILING);
    Ok(())
}

fn sinks(rt: &impl Abort, alloc: Global) -> Result<(), NoMemory> {
    let mut sink = MemorySink::new(alloc, 5, 3, calls(alloc, &[2])?)?;
    writes(rt, &mut sink, &[Put::Took(3), Put::Failed]);
    assert!(rt; sink.bytes() == b"wxy".as_slice());
    writes(rt, &mut sink, &[Put::Took(2), Put::Failed]);
    assert!(rt; sink.bytes() == b"wxywx".as_slice());
    writes(rt, &mut SteadySink::new(), &[Put::Took(4)]);
    let wants = [Put::Failed, Put::Failed, Put::Took(4)];
    writes(rt, &mut WriteSink::new(FailsFirst { calls: 0 }), &wants);
    Ok(())
}

fn others(rt: &impl Abort) {
    let gate = IdleGate::new();
    gate.enter(0);
    gate.leave(0);
    assert!(rt; Limit::Input.name() == "Input");
    let mut tap = CountTap::new();
    for node in 0..3 {
        assert!(rt; tap.told(&Event::Begin { node }) == Tell::More);
    }
    assert!(rt; tap.count() == 3);
}

#[test]
fn each_call(rt: HostRuntime) -> Result<(), Fail> {
    let alloc = rt.alloc();
    names(&rt);
    lists(&rt, alloc)?;
    sources(&rt, alloc)?;
    sinks(&rt, alloc)?;
    others(&rt);
    Ok(())
}
