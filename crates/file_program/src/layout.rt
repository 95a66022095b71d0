//! Layouts of images in a file.

ghost use Rattle.std.specs.Prelude.{⊤};
ghost use Rattle.vk.specs.Layouts.{layout_name, layout_of};
ghost use Rattle.file_program.specs.LayoutWords.{layout_again};

use file_json::{TextForm, Word};
use vk::Layout;

/// The words of layouts.
pub struct LayoutWord;

/// A layout as text.
pub type LayoutForm = TextForm<LayoutWord>;

impl Word for LayoutWord {
    type Of = Layout;

    ghost value_of = { layout_of };

    ghost text_of = { layout_name };

    ghost Fits = { λ _. ⊤ };

    ghost again = { layout_again };

    fn value(text: &str) -> Option<Layout> {
        Layout::read(text.as_bytes())
    }

    fn text(layout: &Layout) -> &str {
        layout.name()
    }
}
