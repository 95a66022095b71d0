//! Single texels among bytes.

ghost use Rattle.std.specs.Prelude.{◌≡◌, ◌≢◌, ℕ, ◌+◌, ◌*◌, ◌%◌, ◌≤◌, ◌<◌, length};
ghost use Rattle.base.specs.Shapes.{texel_bytes};
ghost use Rattle.base.specs.Texels.{texel_at, modulus, picture};
ghost use Rattle.kernel.specs.Bands.{HasRows};

use base::{Grid, Texel};

/// The number in place `i`, where the bytes hold one texel after another.
#[inline(always)]
pub fn get(texel: Texel, bytes: &[u8], i: usize) -> u32
    requires { texel_bytes texel * i + texel_bytes texel ≤ length bytes.now }
    ensures value { result ≡ texel_at texel bytes.now i }
    ensures small { result < modulus texel }
{
    match texel {
        Texel::R8 => u32::from(bytes[i]),
        Texel::R32 => get_word(bytes, i),
    }
}

/// The number at (`x`, `y`) of a grid.
#[inline(always)]
#[tactic(auto, using(crate::proofs::Rows::place_fits))]
pub fn pick(grid: Grid, bytes: &[u8], x: u32, y: u32) -> u32
    requires size { HasRows grid grid.height bytes.now }
    requires x { x < grid.width }
    requires y { y < grid.height }
    ensures value { result ≡ picture grid bytes.now x y }
    ensures small { result < modulus grid.texel }
{
    get(
        grid.texel,
        bytes,
        y as usize * grid.width as usize + x as usize,
    )
}

/// Puts a number, cut to the texel, into place `i`.
#[inline(always)]
pub fn put(texel: Texel, bytes: &mut [u8], i: usize, value: u32)
    requires { texel_bytes texel * i + texel_bytes texel ≤ length bytes.old }
    ensures here { texel_at texel bytes.new i ≡ value % modulus texel }
    ensures others { (k : ℕ) → k ≢ i → texel_at texel bytes.new k ≡ texel_at texel bytes.old k }
{
    match texel {
        Texel::R8 => put_byte(bytes, i, value),
        Texel::R32 => put_word(bytes, i, value),
    }
}

#[inline(always)]
fn get_word(bytes: &[u8], i: usize) -> u32
    requires { 4 * i + 4 ≤ length bytes.now }
    ensures { result ≡ texel_at Texel.R32 bytes.now i }
{
    let k = 4 * i;
    u32::from_le_bytes([bytes[k], bytes[k + 1], bytes[k + 2], bytes[k + 3]])
}

#[inline(always)]
fn put_byte(bytes: &mut [u8], i: usize, value: u32)
    requires { i < length bytes.old }
    ensures here { texel_at Texel.R8 bytes.new i ≡ value % 256 }
    ensures others { (k : ℕ) → k ≢ i → texel_at Texel.R8 bytes.new k ≡ texel_at Texel.R8 bytes.old k }
{
    bytes[i] = (value % 256) as u8;
}

#[inline(always)]
fn put_word(bytes: &mut [u8], i: usize, value: u32)
    requires { 4 * i + 4 ≤ length bytes.old }
    ensures here { texel_at Texel.R32 bytes.new i ≡ value }
    ensures others { (k : ℕ) → k ≢ i → texel_at Texel.R32 bytes.new k ≡ texel_at Texel.R32 bytes.old k }
{
    let k = 4 * i;
    let low = value.to_le_bytes();
    bytes[k] = low[0];
    bytes[k + 1] = low[1];
    bytes[k + 2] = low[2];
    bytes[k + 3] = low[3];
}
