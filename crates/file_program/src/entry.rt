//! Entries of `pieces` in a file, each of which may stand for several pieces.

ghost use Rattle.std.specs.Prelude.{◌≡◌, ◌++◌, map, option_map, IfOk, IfSome};
ghost use Rattle.std.specs.List.{AllByRecursion};
ghost use Rattle.file_json.specs.Parts.{or_at};
ghost use Rattle.file_json.specs.Locations.{legs};
ghost use Rattle.file_json.specs.Reading.{Gives};
ghost use Rattle.file_program.specs.Pieces.{piece_after, behind, row_of, members_of, entry_at, pieces_at, flat, FitsPiece};

use base::{List, NoMemory, Shape};
use file_json::{ListForm, Location, NumberForm, ReadError, Reader, object, others, required};
use file_shapes::{read_body, read_sharing};
use program::Piece;
use serde_json::Value;
use std::alloc::Global;

/// An entry of `pieces`: a piece, or an image with layers, which are pieces one behind another.
pub struct EntryForm<const FORMAT: u32>;

/// The list `pieces`.
pub struct PiecesForm<const FORMAT: u32>;

// The piece behind this one, at the least multiple of 256 at or after its end, where a `u32` holds that.
fn piece_after(piece: Piece) -> Option<Piece>
    ensures after { result ≡ piece_after piece }
    ensures fits { FitsPiece piece → IfSome result FitsPiece }
{
    let end = piece.offset as u128 + piece.shape.bytes();
    let Ok(offset) = u32::try_from((end + 255) / 256 * 256) else {
        return None;
    };
    Some(Piece {
        shape: piece.shape,
        memory: piece.memory,
        offset,
        sharing: piece.sharing,
    })
}

// Adds so many pieces behind this one. A start that no `u32` holds is refused.
fn push_behind(
    alloc: Global,
    at: &Location<'_>,
    mut pieces: List<Piece>,
    piece: Piece,
    more: u32,
) -> Result<List<Piece>, ReadError>
    ensures gives { Gives result (or_at (legs at.now) (option_map (λ row. pieces ++ row) (behind more piece))) }
    ensures fits { AllByRecursion FitsPiece pieces → FitsPiece piece → IfOk result (AllByRecursion FitsPiece) }
{
    if more == 0 {
        return Ok(pieces);
    }
    let Some(next) = piece_after(piece) else {
        return Err(at.refused(alloc));
    };
    pieces.push(next)?;
    push_behind(alloc, at, pieces, next, more - 1)
}

// A piece for each of so many layers.
fn row(
    alloc: Global,
    at: &Location<'_>,
    piece: Piece,
    layers: u32,
) -> Result<List<Piece>, ReadError>
    ensures gives { Gives result (or_at (legs at.now) (row_of layers piece)) }
    ensures fits { FitsPiece piece → IfOk result (AllByRecursion FitsPiece) }
{
    let mut pieces = List::new(alloc);
    pieces.push(piece)?;
    push_behind(alloc, at, pieces, piece, layers.saturating_sub(1))
}

// The members of a piece of this shape, in a file of this format.
fn members<const FORMAT: u32>(shape: Shape) -> &'static [&'static str]
    ensures { map (λ name. name.now) result.now ≡ members_of FORMAT shape }
{
    match shape {
        Shape::Buffer { .. } => if FORMAT == 1 {
            &["buffer", "memory", "offset"]
        } else {
            &["buffer", "memory", "offset", "sharing"]
        },
        Shape::Image { .. } => if FORMAT == 1 {
            &["image", "texel", "memory", "offset"]
        } else {
            &["image", "texel", "layers", "memory", "offset", "sharing"]
        },
    }
}

impl<const FORMAT: u32> Reader for EntryForm<FORMAT> {
    type Out = List<Piece>;

    ghost reads = { entry_at FORMAT };

    ghost Fits = { AllByRecursion FitsPiece };

    #[tactic(auto, unfolding(crate::specs::Pieces::entry_at))]
    fn read(alloc: Global, at: &Location<'_>, json: &Value) -> Result<List<Piece>, ReadError> {
        object(alloc, at, json)?;
        let body = read_body::<FORMAT>(alloc, at, json)?;
        let memory = required::<NumberForm>(alloc, at, "memory", json)?;
        let offset = required::<NumberForm>(alloc, at, "offset", json)?;
        let sharing = read_sharing::<FORMAT>(alloc, at, json)?;
        others(alloc, at, members::<FORMAT>(body.shape), json)?;
        let piece = Piece {
            shape: body.shape,
            memory,
            offset,
            sharing,
        };
        row(alloc, &at.member("layers"), piece, body.layers)
    }
}

// The pieces of all entries, in order.
fn flat(alloc: Global, rows: &List<List<Piece>>) -> Result<List<Piece>, NoMemory>
    ensures { IfOk result (λ pieces. pieces ≡ flat rows.now) }
{
    let mut pieces = List::new(alloc);
    for row in rows.as_slice() {
        pieces.extend_from_slice(row.as_slice())?;
    }
    Ok(pieces)
}

impl<const FORMAT: u32> Reader for PiecesForm<FORMAT> {
    type Out = List<Piece>;

    ghost reads = { pieces_at FORMAT };

    ghost Fits = { AllByRecursion FitsPiece };

    fn read(alloc: Global, at: &Location<'_>, json: &Value) -> Result<List<Piece>, ReadError> {
        let rows = <ListForm<EntryForm<FORMAT>>>::read(alloc, at, json)?;
        Ok(flat(alloc, &rows)?)
    }
}
