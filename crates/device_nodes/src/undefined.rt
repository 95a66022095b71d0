//! Loads that are undefined.

ghost use Rattle.std.specs.Prelude.{◌≡◌, ◌<◌, ◌&&◌, ◌||◌, ◌==◌, not, length};
ghost use Rattle.device_nodes.specs.Internal.Running.{any_of, IsOfNodes};
ghost use Rattle.check_state.specs.StateValid.{needs_owner};
ghost use Rattle.device_model.specs.Ready.{is_wrong, is_foreign, stores_over};
ghost use Rattle.check_access.specs.AccessKinds.{wanted};
ghost use Rattle.check_access.specs.ValidView.{ValidView};
ghost use Rattle.check_access.specs.Views.{family_at, node_access};

use crate::marks::is_torn;
use crate::running::Running;
use check_access::{Access, NodeAccess, View};
use check_state::needs_owner;
use device_model::{Owner, is_wrong};
use vk::Layout;

/// Whether node n does not find the bytes that it loads by the access: a begun command stores to them, or the piece is in
/// another layout or another family's.
pub(crate) fn loads_undefined(
    view: &View,
    running: &Running,
    layout: Layout,
    owner: Owner,
    n: u32,
    access: Access,
) -> bool
    requires shaped { ValidView view.now }
    requires n { n < length view.now.nodes }
    requires piece { access.piece < length view.now.pieces }
    requires nodes { IsOfNodes (length view.now.nodes) running.now }
    ensures { result ≡ (any_of running.now (λ x. not (x == n) && stores_over view.now access.piece x) || (is_wrong (wanted access.kind) layout || (needs_owner view.now (node_access n access) && is_foreign owner (family_at view.now n)))) }
{
    is_torn(view, running, n, access.piece)
        || is_wrong(access.kind.wanted(), layout)
        || needs_owner(view, NodeAccess { node: n, access }) && owner.is_foreign(view.family(n))
}
