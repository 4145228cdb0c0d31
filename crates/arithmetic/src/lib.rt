// Fixed-point arithmetic of libwebp's rescaler (SCOPE, "Fixed point and matting"; the Rust: geometry.rs).
// Every function answers for all arguments.
#![tactic(auto)]

mod matting;

ghost use Rattle.std.specs.Prelude.{◌≡◌};
ghost use Rattle.arithmetic.specs.Word.{wrap_mul};
ghost use Rattle.arithmetic.specs.FixedPoint.{mult, floor, frac};

pub use matting::{matte, mult_argb, restore, restore_factors};

// The product modulo 2^32, beside std::num::wrapping_add_u32 and wrapping_sub_u32.
// Rules out: a product that saturates; one that keeps the high word.
pub fn wrapping_mul(x: u32, y: u32) -> u32
    ensures { result ≡ wrap_mul x y }
{
    ((x as u64 * y as u64) % 4294967296) as u32
}

// The Rust's mult_fix, libwebp's MULT_FIX. The result always fits 32 bits.
// Rules out: rounding down; a rounding constant of another half.
pub fn mult_fix(x: u32, y: u32) -> u32
    ensures { result ≡ mult x y }
{
    ((x as u64 * y as u64 + 2147483648) / 4294967296) as u32
}

// The Rust's mult_fix_floor, libwebp's MULT_FIX_FLOOR.
// Rules out: rounding to the nearest; a shift of one bit less.
pub fn mult_fix_floor(x: u32, y: u32) -> u32
    ensures { result ≡ floor x y }
{
    ((x as u64 * y as u64) / 4294967296) as u32
}

// The Rust's frac, libwebp's WEBP_RESCALER_FRAC: an exact 1 wraps to 0 by design. A denominator of 0 gives 0.
// Rules out: an exact 1 kept at the largest word; rounding to the nearest.
pub fn frac(numer: u32, denom: u32) -> u32
    ensures { result ≡ frac numer denom }
{
    if denom == 0 {
        return 0;
    }
    ((numer as u64 * 4294967296) / denom as u64 % 4294967296) as u32
}
