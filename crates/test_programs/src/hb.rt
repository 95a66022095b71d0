ghost use Rattle.std.specs.Prelude.{[], IfOk};
ghost use Rattle.check_order.specs.Nodes.{program_nodes};
ghost use Rattle.check_table.specs.Joined.{joined};
ghost use Rattle.check_table.specs.Tables.{IsFilled, IsOrderTable};

use crate::sketched::shaped;
use base::{List, NoMemory};
use check_order::*;
use check_table::{OrderTable, program_table};
use program::ValidProgram;
use std::alloc::Global;
use std::test::Fail;

const CROSSED_WAITS: &str = "; graphics wait:1:1 signal:1 ; graphics wait:0:1 signal:1";

// Each queue waits for the one before it, and the first one, after its own signal, for the last.
const RING: &str =
    "; graphics signal:1 batch wait:3:1 signal:2 ; graphics wait:0:1 signal:1 ; graphics wait:1:1 signal:1 ; graphics wait:2:1 signal:1";

fn stuck(alloc: Global, shaped: &ValidProgram) -> Result<(u32, u32), NoMemory> {
    let edges = direct(alloc, shaped)?;
    match drain_of(alloc, shaped, &edges)? {
        Drain::Stuck { queue, node } => Ok((queue, node)),
        Drain::Whole(_) => Err(NoMemory),
    }
}

// The order of all nodes, and the table of what comes before what.
fn settled(alloc: Global, shaped: &ValidProgram) -> Result<(List<u32>, OrderTable), NoMemory>
    ensures filled { IfOk result (λ found. IsFilled found.1) }
    ensures table { IfOk result (λ found. IsOrderTable (joined (program_nodes shaped.now) []) found.1) }
{
    let edges = direct(alloc, shaped)?;
    match drain_of(alloc, shaped, &edges)? {
        Drain::Stuck { .. } => Err(NoMemory),
        Drain::Whole(order) => {
            let table = program_table(alloc, shaped, &edges, &order)?;
            Ok((order, table))
        }
    }
}

// Whether a node comes before another, where both are there.
fn comes(shaped: &ValidProgram, table: &OrderTable, x: u32, y: u32) -> bool
    requires filled { IsFilled table.now }
    requires table { IsOrderTable (joined (program_nodes shaped.now) []) table.now }
{
    let count = shaped.node_count();
    x < count && y < count && table.happens_before(x, y)
}

// The ring's nodes are, queue by queue, signal, wait, signal; and on the others wait, signal.
const RING_ORDER: [u32; 9] = [0, 3, 4, 5, 6, 7, 8, 1, 2];

#[test]
fn drains(rt: HostRuntime) -> Result<(), Fail> {
    let alloc = rt.alloc();
    assert!(&rt; stuck(alloc, &shaped(alloc, CROSSED_WAITS)?)? == (0, 0));
    let ring = shaped(alloc, RING)?;
    let (order, table) = settled(alloc, &ring)?;
    assert!(&rt; order.as_slice() == RING_ORDER.as_slice());
    assert!(&rt; comes(&ring, &table, 4, 8) && !comes(&ring, &table, 1, 8));
    Ok(())
}
