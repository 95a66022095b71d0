//! In which layout a piece is.

ghost use Rattle.std.specs.Prelude.{◌≡◌};
ghost use Rattle.device_model.specs.Ready.{is_wrong};
ghost use Rattle.device_model.specs.Steps.{layout_by};

use check_access::AccessKind;
use vk::Layout;

/// Whether a layout is wanted, and another one is there.
pub fn is_wrong(wanted: Option<Layout>, layout: Layout) -> bool
    ensures { result ≡ is_wrong wanted layout }
{
    match wanted {
        Some(wanted) => wanted.number() != layout.number(),
        None => false,
    }
}

/// The layout of the piece after an access: transitions and discards set it.
pub fn layout_after(kind: AccessKind, layout: Layout) -> Layout
    ensures { result ≡ layout_by kind layout }
{
    match kind {
        AccessKind::Transition(layouts) => layouts.to,
        AccessKind::Discard(layout) => layout,
        _ => layout,
    }
}
