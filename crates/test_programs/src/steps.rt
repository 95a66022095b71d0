use base::Family;
use check_access::{AccessKind, Agent, Handover};
use check_order::Kind;
use device_model::*;
use vk::{Layout, Layouts};

const LOAD: AccessKind = AccessKind::Load {
    agent: Agent::Of { queue: 0, bit: 1 },
    layout: None,
};

const HANDOVER: Handover = Handover {
    from: Family::Graphics,
    to: Family::Compute,
    layouts: None,
};

const TO_COPIED_FROM: Layouts = Layouts {
    from: Layout::General,
    to: Layout::TransferSrc,
};

// One access after another of a piece that nobody has used: its kind, and the family of its queue; whether the family finds
// the piece another's, and then the owner and the layout.
const ACCESSES: [(AccessKind, Family, bool, Option<Family>, Layout); 7] = [
    (
        AccessKind::Discard(Layout::General),
        Family::Graphics,
        false,
        Some(Family::Graphics),
        Layout::General,
    ),
    (
        LOAD,
        Family::Graphics,
        false,
        Some(Family::Graphics),
        Layout::General,
    ),
    (
        LOAD,
        Family::Compute,
        true,
        Some(Family::Graphics),
        Layout::General,
    ),
    (
        AccessKind::Transition(TO_COPIED_FROM),
        Family::Graphics,
        false,
        Some(Family::Graphics),
        Layout::TransferSrc,
    ),
    (
        AccessKind::Release(HANDOVER),
        Family::Graphics,
        false,
        None,
        Layout::TransferSrc,
    ),
    (
        AccessKind::Acquire(HANDOVER),
        Family::Compute,
        false,
        Some(Family::Compute),
        Layout::TransferSrc,
    ),
    (
        LOAD,
        Family::Graphics,
        true,
        Some(Family::Compute),
        Layout::TransferSrc,
    ),
];

#[test]
fn pieces_after_accesses(rt: HostRuntime) {
    let mut owner = Owner::Unused;
    let mut layout = Layout::Undefined;
    for (kind, family, foreign, left, set) in &ACCESSES {
        let was = owner.is_foreign(Some(*family));
        owner = owner.after(*kind, Some(*family));
        layout = layout_after(*kind, layout);
        assert!(rt; was == *foreign && owner == Owner::Left(*left) && layout == *set);
    }
    assert!(rt; is_wrong(Some(Layout::General), layout));
    assert!(rt; !is_wrong(None, layout));
}

#[test]
fn timelines_rise(rt: HostRuntime) {
    let wait = Kind::Wait { queue: 1, value: 5 };
    let mut counters = [9, 4];
    assert!(rt; !has_reached(wait, &counters));
    counters[1] = raised_by(Kind::Signal { value: 6 }, counters[1]);
    assert!(rt; has_reached(wait, &counters));
    counters[1] = raised_by(Kind::Signal { value: 2 }, counters[1]);
    assert!(rt; counters[1] == 6);
    assert!(rt; !has_reached(Kind::Wait { queue: 2, value: 1 }, &counters));
}
