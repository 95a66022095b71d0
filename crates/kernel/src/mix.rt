//! How a rectangle changes a texel.

ghost use Rattle.std.specs.Prelude.{◌≡◌};
ghost use Rattle.base.specs.Kernels.{mixed};

use base::Mix;

#[inline(always)]
pub(crate) fn mixed_with(mix: Mix, old: u32, value: u32) -> u32
    ensures { result ≡ mixed mix old value }
{
    match mix {
        Mix::Set => value,
        Mix::And => old & value,
        Mix::Or => old | value,
        Mix::Xor => old ^ value,
    }
}
