//! Texts that are made shorter again.

ghost use Rattle.std.specs.Prelude.{◌≡◌, ◌≤◌, length, take};

use base::Text;

/// Leaves the first `len` bytes of a text. A call that found no memory for its whole text takes off with it what it
/// wrote. The room that the text has stays.
pub fn cut_back(text: &mut Text, len: usize)
    requires { len ≤ length text.old }
    ensures { text.new ≡ take len text.old }
{
    for _cut in 0..text.len() - len {
        text.pop();
    }
}
