//! Layouts and owners of pieces.

ghost use Rattle.std.specs.Prelude.{◌≡◌, ◌<◌, ℕ, length, get_or};
ghost use Rattle.vk.specs.declared.layout.Layout.TheVariants.{Undefined};
ghost use Rattle.device_model.specs.Steps.{laid_after, owned_after};
ghost use Rattle.device_model.specs.declared.owner.Owner.TheVariants.{Unused};
ghost use Rattle.check_access.specs.ValidView.{ValidView};
ghost use Rattle.check_access.specs.Views.{accesses_of};

use base::List;
use check_access::View;
use device_model::{Owner, layout_after};
use vk::Layout;

/// The layouts after node n's accesses.
pub(crate) fn lay(layouts: &mut List<Layout>, view: &View, n: u32)
    requires shaped { ValidView view.now }
    requires n { n < length view.now.nodes }
    requires size { length layouts.old ≡ length view.now.pieces }
    ensures size { length layouts.new ≡ length layouts.old }
    ensures each { (p : ℕ) → get_or layouts.new p Undefined ≡ laid_after (accesses_of view.now n) p (get_or layouts.old p Undefined) }
{
    for access in view.effect_at(n).accesses.as_slice() {
        let piece = access.piece as usize;
        let next = layout_after(access.kind, layouts[piece]);
        layouts.set(piece, next);
    }
}

/// The owners after node n's accesses.
pub(crate) fn own(owners: &mut List<Owner>, view: &View, n: u32)
    requires shaped { ValidView view.now }
    requires n { n < length view.now.nodes }
    requires size { length owners.old ≡ length view.now.pieces }
    ensures size { length owners.new ≡ length owners.old }
    ensures each { (p : ℕ) → get_or owners.new p Unused ≡ owned_after view.now n (accesses_of view.now n) p (get_or owners.old p Unused) }
{
    let family = view.family(n);
    for access in view.effect_at(n).accesses.as_slice() {
        let piece = access.piece as usize;
        let next = owners[piece].after(access.kind, family);
        owners.set(piece, next);
    }
}
