//! Whether two transfers of ownership hand over the same.

ghost use Rattle.std.specs.Prelude.{◌≡◌, ◌↔◌, IsTrue};

use base::Family;
use check_access::Handover;
use vk::{Layout, Layouts};

fn same_family(a: Family, b: Family) -> bool
    ensures { IsTrue result ↔ a ≡ b }
{
    a == b
}

fn same_layout(a: Layout, b: Layout) -> bool
    ensures { IsTrue result ↔ a ≡ b }
{
    a == b
}

fn same_layouts(a: Option<Layouts>, b: Option<Layouts>) -> bool
    ensures { IsTrue result ↔ a ≡ b }
{
    match (a, b) {
        (Some(a), Some(b)) => same_layout(a.from, b.from) && same_layout(a.to, b.to),
        (None, None) => true,
        _ => false,
    }
}

pub(crate) fn same_handover(a: Handover, b: Handover) -> bool
    ensures { IsTrue result ↔ a ≡ b }
{
    same_family(a.from, b.from) && same_family(a.to, b.to) && same_layouts(a.layouts, b.layouts)
}
