//! An operation over cleared images, or a draw that leaves one number, and one over single numbers that leaves the same.

ghost use Rattle.std.specs.Prelude.{◌≡◌, ◌%◌, ◌<◌, ℕ, List, true, [], ◌∷◌, length, IfSome};
ghost use Rattle.base.specs.Applied.{effect};
ghost use Rattle.base.specs.Fits.{fits};
ghost use Rattle.base.specs.Kernels.{fun_of, under};
ghost use Rattle.base.specs.Shapes.{bytes_of, is_image, same_grid};
ghost use Rattle.base.specs.Texels.{canvas_of, modulus, painted};
ghost use Rattle.device_clear.specs.Internal.Words.{commutes};
ghost use Rattle.device_clear.specs.Internal.Keeps.{Keeps};
ghost use Rattle.device_clear.specs.Simpler.{Reads, IsSimpler};

use crate::image::value_of;
use base::{Fun, Grid, Mix, Op, Rect, Shape, Texel, shape_at};
use device_cache::Contents;
use kernel::{canvas, cut, fun_at};

/// Another operation, and which of the bytes that were loaded are its one source, if it has one.
#[derive(Debug, Drop)]
pub struct Simpler {
    pub op: Op<u32>,
    pub source: Option<usize>,
}

// The function of two numbers that are cut to the texel.
fn number(texel: Texel, fun: Fun, a: u32, b: u32) -> u32
    ensures { result % modulus texel ≡ fun_of texel fun (a % modulus texel) (b % modulus texel) % modulus texel }
{
    fun_at(texel, fun, cut(texel, a), cut(texel, b))
}

// Whether it is all one which of two numbers is the first.
fn commutes(fun: Fun) -> bool
    ensures { result ≡ commutes fun }
{
    match fun {
        Fun::Add | Fun::Mul | Fun::And | Fun::Or | Fun::Xor | Fun::Min | Fun::Max => true,
        Fun::Sub | Fun::Shl | Fun::Shr => false,
    }
}

// The number of a cleared source that is of the destination's shape.
fn cleared_source(from: Shape, to: Shape, src: &Contents) -> Option<u32>
    requires { length src.now ≡ bytes_of from }
    ensures image { IfSome result (λ value. is_image to ≡ true) }
    ensures bytes { IfSome result (λ value. src.now ≡ painted (canvas_of to) (λ x y. value)) }
{
    if from != to {
        return None;
    }
    value_of(from, src)
}

// What a map leaves in each texel, where its source is cleared.
#[tactic(auto, using(crate::proofs::Effects::map_of_one))]
fn mapped(from: Shape, to: Shape, fun: Fun, value: u32, src: &Contents) -> Option<u32>
    requires { length src.now ≡ bytes_of from }
    ensures image { IfSome result (λ number. is_image to ≡ true) }
    ensures same { IfSome result (λ number. painted (canvas_of to) (λ x y. number) ≡ effect (Op.Map from to fun value) src.now [] [] []) }
{
    let own = cleared_source(from, to, src)?;
    Some(number(canvas(to).texel, fun, own, value))
}

// What a combination leaves in each texel, where both sources are cleared.
fn combined(from: (Shape, Shape), to: Shape, fun: Fun, a: &Contents, b: &Contents) -> Option<u32>
    requires a { length a.now ≡ bytes_of from.0 }
    requires b { length b.now ≡ bytes_of from.1 }
    ensures image { IfSome result (λ number. is_image to ≡ true) }
    ensures same { IfSome result (λ number. painted (canvas_of to) (λ x y. number) ≡ effect (Op.Combine from.0 from.1 to fun) a.now b.now [] []) }
{
    let first = cleared_source(from.0, to, a)?;
    let second = cleared_source(from.1, to, b)?;
    let both = number(canvas(to).texel, fun, first, second);
    Some(both)
}

// The number with which a map of the first source leaves what a combination does, where the second is cleared.
#[tactic(auto, using(crate::proofs::Effects::combination_with_one))]
fn mapped_by_second(from: (Shape, Shape), to: Shape, fun: Fun, b: &Contents) -> Option<u32>
    requires b { length b.now ≡ bytes_of from.1 }
    ensures { IfSome result (λ value. (a : List ℕ) → effect (Op.Map from.0 to fun value) a [] [] [] ≡ effect (Op.Combine from.0 from.1 to fun) a b.now [] []) }
{
    cleared_source(from.1, to, b)
}

// The same of the second source, where the first is cleared and the function commutes.
#[tactic(auto, using(crate::proofs::Effects::combination_after_one))]
fn mapped_by_first(from: (Shape, Shape), to: Shape, fun: Fun, a: &Contents) -> Option<u32>
    requires a { length a.now ≡ bytes_of from.0 }
    ensures { IfSome result (λ value. (b : List ℕ) → effect (Op.Map from.1 to fun value) b [] [] [] ≡ effect (Op.Combine from.0 from.1 to fun) a.now b [] []) }
{
    if !commutes(fun) {
        return None;
    }
    cleared_source(from.0, to, a)
}

// A draw of nothing over a clear.
fn draw_nothing(op: &Op<u32>, shapes: &[Shape], loaded: &[Contents]) -> Option<Simpler>
    requires { Reads shapes.now op.now loaded.now }
    ensures { IfSome result (IsSimpler shapes.now op.now loaded.now) }
{
    let Op::Draw { dst, clear, rects } = op else {
        return None;
    };
    if !rects.is_empty() {
        return None;
    }
    let value = (*clear)?;
    Some(Simpler {
        op: Op::ClearImage { dst: *dst, value },
        source: None,
    })
}

// The rectangle, where there is only one.
#[tactic(auto, using(crate::proofs::Simplifying::only_entry))]
fn only(rects: &[Rect]) -> Option<Rect>
    ensures { IfSome result (λ rect. rects.now ≡ rect ∷ []) }
{
    match rects {
        [rect] => Some(*rect),
        _ => None,
    }
}

// Whether a rectangle gives its value to each texel of a grid.
fn sets_all(rect: Rect, grid: Grid) -> bool
    ensures { result ≡ true → (f : ℕ → ℕ → ℕ) (x y : ℕ) → x < grid.width → y < grid.height → under grid.texel f rect x y ≡ rect.value % modulus grid.texel }
{
    let whole = rect.width == grid.width && rect.height == grid.height;
    rect.mix == Mix::Set && rect.x == 0 && rect.y == 0 && whole
}

// A draw of one rectangle that sets each texel.
fn draw_whole(op: &Op<u32>, shapes: &[Shape], loaded: &[Contents]) -> Option<Simpler>
    requires { Reads shapes.now op.now loaded.now }
    ensures { IfSome result (IsSimpler shapes.now op.now loaded.now) }
{
    let Op::Draw { dst, rects, .. } = op else {
        return None;
    };
    let rect = only(rects)?;
    if !sets_all(rect, canvas(shape_at(shapes, *dst))) {
        return None;
    }
    Some(Simpler {
        op: Op::ClearImage {
            dst: *dst,
            value: rect.value,
        },
        source: None,
    })
}

// A draw that leaves a clear.
fn draw_simpler(op: &Op<u32>, shapes: &[Shape], loaded: &[Contents]) -> Option<Simpler>
    requires { Reads shapes.now op.now loaded.now }
    ensures { IfSome result (IsSimpler shapes.now op.now loaded.now) }
{
    if let Some(simpler) = draw_nothing(op, shapes, loaded) {
        return Some(simpler);
    }
    draw_whole(op, shapes, loaded)
}

// The source and the destination of an operation that leaves the number of a cleared image as it is.
fn keeping(op: &Op<u32>) -> Option<(u32, u32)>
    ensures { IfSome result (λ at. Keeps op.now at.0 at.1) }
{
    match op {
        Op::Convert { src, dst } | Op::Box3 { src, dst } | Op::Halve { src, dst } => Some((
            *src, *dst,
        )),
        _ => None,
    }
}

// A conversion, a blur or a halving of a cleared image.
fn kept(op: &Op<u32>, shapes: &[Shape], loaded: &[Contents]) -> Option<Simpler>
    requires { Reads shapes.now op.now loaded.now }
    ensures { IfSome result (IsSimpler shapes.now op.now loaded.now) }
{
    let (src, dst) = keeping(op)?;
    let value = value_of(shape_at(shapes, src), &loaded[0])?;
    Some(Simpler {
        op: Op::ClearImage { dst, value },
        source: None,
    })
}

// A map of a cleared image.
fn map_cleared(op: &Op<u32>, shapes: &[Shape], loaded: &[Contents]) -> Option<Simpler>
    requires { Reads shapes.now op.now loaded.now }
    ensures { IfSome result (IsSimpler shapes.now op.now loaded.now) }
{
    let Op::Map {
        src,
        dst,
        fun,
        value,
    } = op
    else {
        return None;
    };
    let (from, to) = (shape_at(shapes, *src), shape_at(shapes, *dst));
    let value = mapped(from, to, *fun, *value, &loaded[0])?;
    Some(Simpler {
        op: Op::ClearImage { dst: *dst, value },
        source: None,
    })
}

// A combination of two cleared images.
fn combine_cleared(op: &Op<u32>, shapes: &[Shape], loaded: &[Contents]) -> Option<Simpler>
    requires { Reads shapes.now op.now loaded.now }
    ensures { IfSome result (IsSimpler shapes.now op.now loaded.now) }
{
    let Op::Combine { a, b, dst, fun } = op else {
        return None;
    };
    let from = (shape_at(shapes, *a), shape_at(shapes, *b));
    let to = shape_at(shapes, *dst);
    let value = combined(from, to, *fun, &loaded[0], &loaded[1])?;
    Some(Simpler {
        op: Op::ClearImage { dst: *dst, value },
        source: None,
    })
}

// A combination with a cleared second source.
fn combine_second(op: &Op<u32>, shapes: &[Shape], loaded: &[Contents]) -> Option<Simpler>
    requires { Reads shapes.now op.now loaded.now }
    ensures { IfSome result (IsSimpler shapes.now op.now loaded.now) }
{
    let Op::Combine { a, b, dst, fun } = op else {
        return None;
    };
    let from = (shape_at(shapes, *a), shape_at(shapes, *b));
    let value = mapped_by_second(from, shape_at(shapes, *dst), *fun, &loaded[1])?;
    Some(Simpler {
        op: Op::Map {
            src: *a,
            dst: *dst,
            fun: *fun,
            value,
        },
        source: Some(0),
    })
}

// A combination with a cleared first source.
fn combine_first(op: &Op<u32>, shapes: &[Shape], loaded: &[Contents]) -> Option<Simpler>
    requires { Reads shapes.now op.now loaded.now }
    ensures { IfSome result (IsSimpler shapes.now op.now loaded.now) }
{
    let Op::Combine { a, b, dst, fun } = op else {
        return None;
    };
    let from = (shape_at(shapes, *a), shape_at(shapes, *b));
    let value = mapped_by_first(from, shape_at(shapes, *dst), *fun, &loaded[0])?;
    Some(Simpler {
        op: Op::Map {
            src: *b,
            dst: *dst,
            fun: *fun,
            value,
        },
        source: Some(1),
    })
}

// A combination one of whose sources is cleared, or both.
fn combine_simpler(op: &Op<u32>, shapes: &[Shape], loaded: &[Contents]) -> Option<Simpler>
    requires { Reads shapes.now op.now loaded.now }
    ensures { IfSome result (IsSimpler shapes.now op.now loaded.now) }
{
    if let Some(simpler) = combine_cleared(op, shapes, loaded) {
        return Some(simpler);
    }
    if let Some(simpler) = combine_second(op, shapes, loaded) {
        return Some(simpler);
    }
    combine_first(op, shapes, loaded)
}

/// An operation that leaves the same and has fewer sources, where sources are cleared images, or that is a clear itself.
/// It takes no memory.
pub fn simplified(op: &Op<u32>, shapes: &[Shape], loaded: &[Contents]) -> Option<Simpler>
    requires { Reads shapes.now op.now loaded.now }
    ensures { IfSome result (IsSimpler shapes.now op.now loaded.now) }
{
    match op {
        Op::Draw { .. } => draw_simpler(op, shapes, loaded),
        Op::Convert { .. } | Op::Box3 { .. } | Op::Halve { .. } => kept(op, shapes, loaded),
        Op::Map { .. } => map_cleared(op, shapes, loaded),
        Op::Combine { .. } => combine_simpler(op, shapes, loaded),
        _ => None,
    }
}
