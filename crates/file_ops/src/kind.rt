//! Which operation it is.

ghost use Rattle.std.specs.Prelude.{◌≡◌, map, ⊤, option_copied};
ghost use Rattle.std.specs.List.{find};
ghost use Rattle.std.specs.Str.{bytes_eq};
ghost use Rattle.file_ops.specs.Kinds.{kind_of, kind_text, kind_again, members_of, op_kind};

use base::Op;
use file_json::{TextForm, Word};

/// An operation without its operands and numbers.
#[derive(Clone, Copy, Debug, PartialEq, Eq)]
pub enum Kind {
    FillBuffer,
    ClearImage,
    CopyBuffer,
    CopyImage,
    BufferToImage,
    ImageToBuffer,
    Ramp,
    Map,
    Combine,
    Select,
    Convert,
    Box3,
    Halve,
    Histogram,
    Draw,
}

const KINDS: [Kind; 15] = [
    Kind::FillBuffer,
    Kind::ClearImage,
    Kind::CopyBuffer,
    Kind::CopyImage,
    Kind::BufferToImage,
    Kind::ImageToBuffer,
    Kind::Ramp,
    Kind::Map,
    Kind::Combine,
    Kind::Select,
    Kind::Convert,
    Kind::Box3,
    Kind::Halve,
    Kind::Histogram,
    Kind::Draw,
];

/// The words of the kinds.
pub struct KindWord;

/// A kind as text.
pub type KindForm = TextForm<KindWord>;

impl Word for KindWord {
    type Of = Kind;

    ghost value_of = { kind_of };

    ghost text_of = { kind_text };

    ghost Fits = { λ _. ⊤ };

    ghost again = { kind_again };

    fn value(text: &str) -> Option<Kind> {
        kind_of(text)
    }

    fn text(kind: &Kind) -> &str {
        kind_text(kind)
    }
}

fn kind_text(kind: &Kind) -> &'static str
    ensures { result.now ≡ kind_text kind.now }
{
    match kind {
        Kind::FillBuffer => "fill_buffer",
        Kind::ClearImage => "clear_image",
        Kind::CopyBuffer => "copy_buffer",
        Kind::CopyImage => "copy_image",
        Kind::BufferToImage => "buffer_to_image",
        Kind::ImageToBuffer => "image_to_buffer",
        Kind::Ramp => "ramp",
        Kind::Map => "map",
        Kind::Combine => "combine",
        Kind::Select => "select",
        Kind::Convert => "convert",
        Kind::Box3 => "box3",
        Kind::Halve => "halve",
        Kind::Histogram => "histogram",
        Kind::Draw => "draw",
    }
}

fn find<'a>(kinds: &'a [Kind], text: &str) -> Option<&'a Kind>
    ensures { option_copied result ≡ find (λ kind. bytes_eq text.now (kind_text kind)) kinds.now }
{
    kinds.iter().find(|kind| text == kind_text(kind))
}

fn kind_of(text: &str) -> Option<Kind>
    ensures { result ≡ kind_of text.now }
{
    find(&KINDS, text).copied()
}

/// The kind of an operation.
pub fn op_kind<R>(op: &Op<R>) -> Kind
    ensures { result ≡ op_kind op.now }
{
    match op {
        Op::FillBuffer { .. } => Kind::FillBuffer,
        Op::ClearImage { .. } => Kind::ClearImage,
        Op::CopyBuffer { .. } => Kind::CopyBuffer,
        Op::CopyImage { .. } => Kind::CopyImage,
        Op::BufferToImage { .. } => Kind::BufferToImage,
        Op::ImageToBuffer { .. } => Kind::ImageToBuffer,
        Op::Ramp { .. } => Kind::Ramp,
        Op::Map { .. } => Kind::Map,
        Op::Combine { .. } => Kind::Combine,
        Op::Select { .. } => Kind::Select,
        Op::Convert { .. } => Kind::Convert,
        Op::Box3 { .. } => Kind::Box3,
        Op::Halve { .. } => Kind::Halve,
        Op::Histogram { .. } => Kind::Histogram,
        Op::Draw { .. } => Kind::Draw,
    }
}

/// The members that an operation of a kind may have, `op` among them, in the order of examination.
pub fn members(kind: Kind) -> &'static [&'static str]
    ensures { map (λ name. name.now) result.now ≡ members_of kind }
{
    match kind {
        Kind::FillBuffer => &["op", "dst", "offset", "size", "word"],
        Kind::ClearImage => &["op", "dst", "value"],
        Kind::CopyBuffer => &["op", "src", "dst", "src_offset", "dst_offset", "size"],
        Kind::CopyImage => &[
            "op", "src", "dst", "src_x", "src_y", "dst_x", "dst_y", "width", "height",
        ],
        Kind::BufferToImage => &["op", "src", "dst", "offset"],
        Kind::ImageToBuffer => &["op", "src", "dst", "offset"],
        Kind::Ramp => &["op", "dst", "base", "dx", "dy"],
        Kind::Map => &["op", "src", "dst", "fun", "value"],
        Kind::Combine => &["op", "a", "b", "dst", "fun"],
        Kind::Select => &["op", "mask", "a", "b", "dst"],
        Kind::Convert => &["op", "src", "dst"],
        Kind::Box3 => &["op", "src", "dst"],
        Kind::Halve => &["op", "src", "dst"],
        Kind::Histogram => &["op", "src", "dst"],
        Kind::Draw => &["op", "dst", "clear", "rects"],
    }
}
