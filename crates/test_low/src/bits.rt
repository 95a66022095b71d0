use bitflags::Flags;
use vk::*;

// Texts, and the bits of the stages that they are.
const STAGES: [(&[u8], Option<u64>); 8] = [
    (b"", Some(0)),
    (b"COPY", Some(0x1_0000_0000)),
    (b"CLEAR|HOST|CLEAR", Some(0x8_0000_4000)),
    (b"COPY|", None),
    (b"|COPY", None),
    (b"COPY | CLEAR", None),
    (b"0x1000", None),
    (b"\xff", None),
];

const ACCESSES: [(&[u8], Option<u64>); 2] = [
    (b"SHADER_STORAGE_WRITE|HOST_READ", Some(0x4_0000_2000)),
    (b"COPY", None),
];

fn stages(text: &[u8]) -> Option<u64> {
    Stages::read(text).map(|stages| stages.bits())
}

fn accesses(text: &[u8]) -> Option<u64> {
    Accesses::read(text).map(|accesses| accesses.bits())
}

#[test]
fn texts(rt: HostRuntime) {
    for (text, wanted) in &STAGES {
        assert!(&rt; stages(text) == *wanted, "{text:?}");
    }
    for (text, wanted) in &ACCESSES {
        assert!(&rt; accesses(text) == *wanted, "{text:?}");
    }
}

// The name of each of three stages, one after another.
const NAMES: [(u32, Option<&str>); 4] = [
    (0, Some("COLOR_ATTACHMENT_OUTPUT")),
    (1, Some("HOST")),
    (2, Some("COPY")),
    (3, None),
];

fn name(k: u32) -> Option<&'static str> {
    let stages = Stages::COPY
        .union(Stages::COLOR_ATTACHMENT_OUTPUT)
        .union(Stages::HOST);
    stages.put(k)
}

#[test]
fn names(rt: HostRuntime) {
    for (k, wanted) in &NAMES {
        assert!(&rt; name(*k) == *wanted, "{k}");
    }
    assert!(&rt; Accesses::MEMORY_WRITE.put(0) == Some("MEMORY_WRITE"));
    assert!(&rt; Layout::TransferDst.name() == "TRANSFER_DST_OPTIMAL");
    assert!(&rt; Layout::read(b"GENERAL") == Some(Layout::General));
    assert!(&rt; Layout::read(b"general") == None);
    assert!(&rt; Layout::ShaderReadOnly.number() == 5);
}

#[test]
fn tables(rt: HostRuntime) {
    let all = Stages::ALL_COMMANDS;
    assert!(&rt; all.expand().bits() == 0x9_0000_0c00);
    assert!(&rt; Accesses::MEMORY_READ.expand().bits() == 0x3_0000_2880);
    assert!(&rt; supports(Stages::ALL_TRANSFER, Accesses::TRANSFER_READ));
    assert!(&rt; !supports(Stages::CLEAR, Accesses::TRANSFER_READ));
    assert!(&rt; !supports(all, Accesses::HOST_READ));
    assert!(&rt; on_family(all, 2));
    assert!(&rt; !on_family(Stages::COMPUTE_SHADER, 2));
    assert!(&rt; !on_family(all, 3));
    assert!(&rt; agents(all, Accesses::MEMORY_WRITE) == 0xd4);
    assert!(&rt; agents(Stages::HOST, Accesses::MEMORY_READ) == 0x100);
}
