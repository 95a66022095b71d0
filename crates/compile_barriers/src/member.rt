//! Of which unit uses are.

ghost use Rattle.std.specs.Prelude.{◌≡◌, ◌<◌, length};
ghost use Rattle.compile_barriers.specs.Prologues.{first};

use compile_groups::Use;

/// The unit of the first one.
pub(crate) fn unit_of(uses: &[Use]) -> u32
    requires { 0 < length uses.now }
    ensures { result ≡ (first uses.now).unit }
{
    uses[0].unit
}
