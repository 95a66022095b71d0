//! Calls with constants, so that the loops over blocks in them have no branches for what stays the same.

/// The call, with a constant in the place of the texel.
macro_rules! by_texel {
    ($call:ident($texel:expr, $($rest:expr),*)) => {
        match $texel {
            Texel::R8 => $call(Texel::R8, $($rest),*),
            Texel::R32 => $call(Texel::R32, $($rest),*),
        }
    };
}

/// The call, with a constant in the place of `fun` too.
macro_rules! by_function {
    ($call:ident($texel:expr, $fun:expr, $($rest:expr),*)) => {
        match $fun {
            Fun::Add => by_texel!($call($texel, Fun::Add, $($rest),*)),
            Fun::Sub => by_texel!($call($texel, Fun::Sub, $($rest),*)),
            Fun::Mul => by_texel!($call($texel, Fun::Mul, $($rest),*)),
            Fun::And => by_texel!($call($texel, Fun::And, $($rest),*)),
            Fun::Or => by_texel!($call($texel, Fun::Or, $($rest),*)),
            Fun::Xor => by_texel!($call($texel, Fun::Xor, $($rest),*)),
            Fun::Min => by_texel!($call($texel, Fun::Min, $($rest),*)),
            Fun::Max => by_texel!($call($texel, Fun::Max, $($rest),*)),
            Fun::Shl => by_texel!($call($texel, Fun::Shl, $($rest),*)),
            Fun::Shr => by_texel!($call($texel, Fun::Shr, $($rest),*)),
        }
    };
}

pub(crate) use by_function;
pub(crate) use by_texel;
