//! What stands at the nodes of a program.

ghost use Rattle.std.specs.Prelude.{◌≡◌, ◌<◌, length, true, Some};
ghost use Rattle.check_program.specs.Apart.{op_at, op_of};
ghost use Rattle.device_model.specs.Ready.{is_command, kind_at, read_node};
ghost use Rattle.check_access.specs.Views.{view_of};

use base::Op;
use program::{Entry, Item, ValidProgram};

/// The operation of a command.
pub(crate) fn op_of(program: &ValidProgram, node: u32) -> &Op<u32>
    requires command { is_command (kind_at (view_of program.now) node) ≡ true }
    requires node { node < length (view_of program.now).nodes }
    ensures { op_at program.now node ≡ Some result.now }
{
    match program.entry(node) {
        Entry::Item {
            item: Item::Command(op),
            ..
        } => op,
        _ => unreachable!(),
    }
}

/// The node of a read-back.
pub(crate) fn read_node(program: &ValidProgram, k: u32) -> u32
    requires { k < length program.now.readbacks }
    ensures node { result ≡ read_node program.now k }
    ensures within { result < length (view_of program.now).nodes }
{
    let queues = program.program().queues.len() as u32;
    program.first_node(queues) + k
}
