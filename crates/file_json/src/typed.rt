//! What the types of values say of them.

/// A form, and what the type of its values says of each of them.
///
/// A clause sees a name as any bytes and a number as any natural number. `look` goes over a value once, so that its caller
/// knows of each name in it that it is one, and of each number that its type holds it.
pub trait Typed {
    type Of;

    /// What the type says of a value.
    ghost Says: { Self.Of → Type 0 };

    fn look(value: &Self::Of)
        ensures { Says value.now };
}
