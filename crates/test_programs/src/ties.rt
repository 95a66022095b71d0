use crate::sketched::shaped;
use base::NoMemory;
use check_access::{node_accesses_of, view_of};
use check_access_order::order_laws;
use check_order::{Drain, drain_of};
use check_sync::*;
use check_table::program_table;
use program::ValidProgram;
use std::alloc::Global;
use std::test::Fail;

// A fill, node 0, a barrier, and a copy of what was filled, node 2; and the flaw.
const BETWEEN: [(&str, Option<Flaw>); 5] = [
    (
        "plain:272 buffer:16:0:0 buffer:16:0:256 ; graphics fill:0:16 bar:0:CLEAR,TRANSFER_WRITE>COPY,TRANSFER_READ copy:0:1:16",
        None,
    ),
    (
        "plain:272 buffer:16:0:0 buffer:16:0:256 ; graphics fill:0:16 bar:0:COPY,TRANSFER_WRITE>COPY,TRANSFER_READ copy:0:1:16",
        Some(Flaw::Unordered),
    ),
    (
        "plain:272 buffer:16:0:0 buffer:16:0:256 ; graphics fill:0:16 bar:0:CLEAR,MEMORY_READ>COPY,TRANSFER_READ copy:0:1:16",
        Some(Flaw::NotAvailable),
    ),
    (
        "plain:272 buffer:16:0:0 buffer:16:0:256 ; graphics fill:0:16 bar:1:CLEAR,TRANSFER_WRITE>COPY,TRANSFER_READ copy:0:1:16",
        Some(Flaw::NotAvailable),
    ),
    (
        "plain:272 buffer:16:0:0 buffer:16:0:256 ; graphics fill:0:16 bar:0:CLEAR,TRANSFER_WRITE>COPY,MEMORY_WRITE copy:0:1:16",
        Some(Flaw::NotVisible),
    ),
];

fn sync_hazard(alloc: Global, shaped: &ValidProgram) -> Result<Option<SyncHazard>, NoMemory> {
    let view = view_of(alloc, shaped)?;
    match drain_of(alloc, shaped, view.edges())? {
        Drain::Stuck { .. } => Err(NoMemory),
        Drain::Whole(order) => {
            order_laws();
            let table = program_table(alloc, shaped, view.edges(), &order)?;
            let accesses = node_accesses_of(alloc, &view, &order)?;
            first_flaw(alloc, &view, &table, &accesses)
        }
    }
}

// The copy and the fill that a flaw leaves unsynchronized.
fn after_fill(flaw: Option<Flaw>) -> Option<SyncHazard> {
    match flaw {
        Some(flaw) => Some(SyncHazard {
            first: 0,
            second: 2,
            flaw,
        }),
        None => None,
    }
}

#[test]
fn first_flaws(rt: HostRuntime) -> Result<(), Fail> {
    let alloc = rt.alloc();
    for (line, flaw) in &BETWEEN {
        let found = sync_hazard(alloc, &shaped(alloc, line)?)?;
        assert!(&rt; found == after_fill(*flaw), "{line}");
    }
    Ok(())
}
