use base::{Family, List, NoMemory};
use compile_timeline::*;
use program::{Batch, Item, Queue};
use std::alloc::Global;
use std::process::Abort;
use std::test::Fail;
use vk::{Accesses, Masks, Stages};

// The queue of a step, and the step that it needs, if it is no item.
type Row = (u32, Option<u32>);

// The queue of a batch, how many waits and items it has, and its signal's value, 0 without one.
type Cut = (usize, usize, usize, u64);

// The second wait is left out.
const LATE: [Row; 6] = [
    (0, None),
    (0, None),
    (1, Some(1)),
    (1, None),
    (1, Some(0)),
    (1, None),
];

const THREE: [Row; 9] = [
    (0, None),
    (1, None),
    (2, Some(1)),
    (2, Some(0)),
    (2, None),
    (0, None),
    (2, Some(5)),
    (2, None),
    (0, None),
];

fn script(alloc: Global, rows: &[Row]) -> Result<List<Step>, NoMemory> {
    let masks = Masks {
        src_stages: Stages::ALL_COMMANDS,
        src_accesses: Accesses::MEMORY_READ,
        dst_stages: Stages::ALL_COMMANDS,
        dst_accesses: Accesses::MEMORY_READ,
    };
    let mut script = List::new(alloc);
    for row in rows {
        script.push(match row.1 {
            None => Step::Item {
                queue: row.0,
                item: Item::Global(masks),
            },
            Some(step) => Step::Need { queue: row.0, step },
        })?;
    }
    Ok(script)
}

fn row_of(queue: usize, batch: &Batch) -> Cut {
    let value = match batch.signal {
        Some(signal) => signal.value,
        None => 0,
    };
    (queue, batch.waits.len(), batch.items.len(), value)
}

fn cuts(alloc: Global, queues: &[Queue]) -> Result<List<Cut>, NoMemory> {
    let mut cuts = List::new(alloc);
    for (q, queue) in queues.iter().enumerate() {
        for batch in queue.batches.as_slice() {
            cuts.push(row_of(q, batch))?;
        }
    }
    Ok(cuts)
}

fn check(
    rt: &impl Abort,
    alloc: Global,
    rows: &[Row],
    families: &[Family],
    expected: &[Cut],
) -> Result<(), NoMemory> {
    let script = script(alloc, rows)?;
    let fits = is_script(&script, families);
    assert!(rt; families.len() <= 4);
    assert!(rt; fits);
    let queues = batches(alloc, &script, families)?;
    let cuts = cuts(alloc, &queues)?;
    assert!(rt; cuts.as_slice() == expected);
    Ok(())
}

#[test]
fn cut_queues(rt: HostRuntime) -> Result<(), Fail> {
    let alloc = rt.alloc();
    check(
        &rt,
        alloc,
        &LATE,
        &[Family::Graphics, Family::Compute],
        &[(0, 0, 2, 1), (1, 1, 2, 1)],
    )?;
    check(
        &rt,
        alloc,
        &THREE,
        &[Family::Graphics, Family::Compute, Family::Transfer],
        &[
            (0, 0, 1, 1),
            (0, 0, 1, 2),
            (0, 0, 1, 3),
            (1, 0, 1, 1),
            (2, 2, 1, 0),
            (2, 1, 1, 1),
        ],
    )?;
    Ok(())
}
