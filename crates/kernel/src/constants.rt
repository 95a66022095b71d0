//! Calls with constants, so that the loops over texels in them have no branches for what stays the same.

/// The call, with a constant in the place of the grid's texel: a loop in it needs no branch for it.
macro_rules! by_texel {
    ($call:ident($grid:expr, $($rest:expr),*)) => {{
        let Grid { width, height, texel } = $grid;
        match texel {
            Texel::R8 => $call(Grid { width, height, texel: Texel::R8 }, $($rest),*),
            Texel::R32 => $call(Grid { width, height, texel: Texel::R32 }, $($rest),*),
        }
    }};
}

/// The call, with a constant in the place of `fun` too.
macro_rules! by_function {
    ($call:ident($grid:expr, $fun:expr, $($rest:expr),*)) => {
        match $fun {
            Fun::Add => by_texel!($call($grid, Fun::Add, $($rest),*)),
            Fun::Sub => by_texel!($call($grid, Fun::Sub, $($rest),*)),
            Fun::Mul => by_texel!($call($grid, Fun::Mul, $($rest),*)),
            Fun::And => by_texel!($call($grid, Fun::And, $($rest),*)),
            Fun::Or => by_texel!($call($grid, Fun::Or, $($rest),*)),
            Fun::Xor => by_texel!($call($grid, Fun::Xor, $($rest),*)),
            Fun::Min => by_texel!($call($grid, Fun::Min, $($rest),*)),
            Fun::Max => by_texel!($call($grid, Fun::Max, $($rest),*)),
            Fun::Shl => by_texel!($call($grid, Fun::Shl, $($rest),*)),
            Fun::Shr => by_texel!($call($grid, Fun::Shr, $($rest),*)),
        }
    };
}

pub(crate) use by_function;
pub(crate) use by_texel;
