use crate::sketched::shaped;
use base::{List, NoMemory};
use check_access::*;
use check_order::{Drain, drain_of};
use program::ValidProgram;
use std::alloc::Global;
use std::test::Fail;

// A fill and a signal; the host reads what was filled.
const FILLED: &str = "plain:16 buffer:16:0:0 read:0 ; graphics fill:0:16 signal:1";

fn accesses(alloc: Global, shaped: &ValidProgram) -> Result<List<NodeAccess>, NoMemory> {
    let view = view_of(alloc, shaped)?;
    match drain_of(alloc, shaped, view.edges())? {
        Drain::Whole(order) => node_accesses_of(alloc, &view, &order),
        Drain::Stuck { .. } => Err(NoMemory),
    }
}

#[test]
fn fill_and_read(rt: HostRuntime) -> Result<(), Fail> {
    let alloc = rt.alloc();
    let accesses = accesses(alloc, &shaped(alloc, FILLED)?)?;
    let [stored, loaded] = accesses.as_slice() else {
        return Err(NoMemory)?;
    };
    assert!(&rt; stored.node == 0 && stored.access.kind.stores());
    assert!(&rt; loaded.node == 2 && loaded.access.kind.loads());
    Ok(())
}
