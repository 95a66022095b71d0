//! The table of a program's order.

ghost use Rattle.std.specs.Prelude.{◌≡◌, [], IfOk};
ghost use Rattle.check_order.specs.Nodes.{program_nodes};
ghost use Rattle.check_order.specs.Orders.{Order};
ghost use Rattle.check_table.specs.Joined.{joined};
ghost use Rattle.check_table.specs.Tables.{IsFilled, IsOrderTable};

use crate::laws::table_laws;
use crate::table::{OrderTable, table_of};
use base::NoMemory;
use check_order::Edges;
use program::ValidProgram;
use std::alloc::Global;
use vk::Stages;

// The stages that masks stand for.
const STAGES: [Stages; 5] = [
    Stages::COLOR_ATTACHMENT_OUTPUT,
    Stages::COMPUTE_SHADER,
    Stages::HOST,
    Stages::COPY,
    Stages::CLEAR,
];

/// The table of the order of a program's nodes. The edges are those of the program, and the order is one of its nodes.
pub fn program_table(
    alloc: Global,
    program: &ValidProgram,
    edges: &Edges,
    order: &[u32],
) -> Result<OrderTable, NoMemory>
    requires edges { edges.now ≡ program_nodes program.now }
    requires order { Order (program_nodes program.now) order.now }
    ensures filled { IfOk result IsFilled }
    ensures table { IfOk result (IsOrderTable (joined (program_nodes program.now) [])) }
{
    table_laws();
    let queues = program.program().queues.len();
    table_of(alloc, edges, &[], order, queues, &STAGES)
}
