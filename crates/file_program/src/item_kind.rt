//! Which item it is.

ghost use Rattle.std.specs.Prelude.{⊤};
ghost use Rattle.file_program.specs.ItemKinds.{item_kind_of, item_kind_text, item_kind_again};

use file_json::{TextForm, Word};

/// An item without what its kind has.
#[derive(Clone, Copy, Debug, PartialEq, Eq)]
pub enum ItemKind {
    Command,
    Global,
    Buffer,
    Image,
    Release,
    Acquire,
}

/// The words of the kinds.
pub struct ItemKindWord;

/// A kind as text.
pub type ItemKindForm = TextForm<ItemKindWord>;

impl Word for ItemKindWord {
    type Of = ItemKind;

    ghost value_of = { item_kind_of };

    ghost text_of = { item_kind_text };

    ghost Fits = { λ _. ⊤ };

    ghost again = { item_kind_again };

    fn value(text: &str) -> Option<ItemKind> {
        if text == "command" {
            Some(ItemKind::Command)
        } else if text == "global" {
            Some(ItemKind::Global)
        } else if text == "buffer" {
            Some(ItemKind::Buffer)
        } else if text == "image" {
            Some(ItemKind::Image)
        } else if text == "release" {
            Some(ItemKind::Release)
        } else if text == "acquire" {
            Some(ItemKind::Acquire)
        } else {
            None
        }
    }

    fn text(kind: &ItemKind) -> &str {
        match kind {
            ItemKind::Command => "command",
            ItemKind::Global => "global",
            ItemKind::Buffer => "buffer",
            ItemKind::Image => "image",
            ItemKind::Release => "release",
            ItemKind::Acquire => "acquire",
        }
    }
}
