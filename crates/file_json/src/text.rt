//! Values that stand in a file as texts, and names among them.

ghost use Rattle.std.specs.Prelude.{◌≡◌, ℕ, List, Some, IfSome};
ghost use Rattle.base.specs.Names.{IsName, name_of};
ghost use Rattle.file_json.specs.Leaves.{text_at, text_data, same_bytes, name_again};

use crate::{Location, ReadError, Reader, Typed, Writer};
use base::Name;
use serde_json::Value;
use std::alloc::{AllocError, Global};
use std::marker::PhantomData;

/// The texts that stand for the values of a type.
pub trait Word {
    ghost use Rattle.std.specs.declared.option.Option.{Option};

    type Of: Drop;

    /// The value that a text stands for.
    ghost value_of: { List ℕ → Option Self.Of };

    /// The text of a value.
    ghost text_of: { Self.Of → List ℕ };

    /// What the format says of a value.
    ghost Fits: { Self.Of → Type 0 };

    fn value(text: &str) -> Option<Self::Of>
        ensures value { result ≡ value_of text.now }
        ensures fits { IfSome result Fits };

    fn text(value: &Self::Of) -> &str
        ensures { result.now ≡ text_of value.now };

    /// The text of a value stands for it.
    ghost again: { (x : Self.Of) → Fits x → value_of (text_of x) ≡ Some x };
}

/// A text that is a word of `W`.
pub struct TextForm<W> {
    word: PhantomData<W>,
}

impl<W: Word> Reader for TextForm<W> {
    type Out = W::Of;

    ghost reads = { text_at W.value_of };

    ghost Fits = { W.Fits };

    fn read(alloc: Global, at: &Location<'_>, value: &Value) -> Result<W::Of, ReadError> {
        match value.as_str() {
            Some(text) => match W::value(text) {
                Some(found) => Ok(found),
                None => Err(at.refused(alloc)),
            },
            None => Err(at.refused(alloc)),
        }
    }
}

impl<W: Word> Writer for TextForm<W> {
    type In = W::Of;

    ghost writes = { text_data W.text_of };

    fn write(alloc: Global, value: &W::Of) -> Result<Value, AllocError> {
        Value::try_from_str(alloc, W::text(value))
    }
}

/// The texts of names.
pub struct NameWord;

/// A name as text.
pub type NameForm = TextForm<NameWord>;

impl Word for NameWord {
    type Of = Name;

    ghost value_of = { name_of };

    ghost text_of = { same_bytes };

    ghost Fits = { IsName };

    ghost again = { name_again };

    fn value(text: &str) -> Option<Name> {
        Name::read(text.as_bytes())
    }

    fn text(value: &Name) -> &str {
        value.as_str()
    }
}

impl Typed for TextForm<NameWord> {
    type Of = Name;

    ghost Says = { IsName };

    fn look(name: &Name) {
        name.as_bytes();
    }
}
