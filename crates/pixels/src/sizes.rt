// Sizes (SCOPE, "Beside the job" and numbers 1 and 2 of "Why a call is turned away"; the Rust: Dimensions and Rect).
ghost use Rattle.std.specs.Prelude.{◌≡◌, ◌*◌, ◌^◌, ◌≤◌};
ghost use Rattle.pixels.specs.Refusals.{answer_number, sized_size, size_if};
ghost use Rattle.pixels.specs.Sizes.{max_side, bad_side, bad_size, size_of, rect_of, size_number, derived_side, scaled_number, scaled_size};

use crate::{Dimensions, MAX_DIMENSION, Rect, Refusal};

// A side is 0 or above the limit. Rules out: a side of twice the limit passed; a side of 16,384 refused.
pub fn bad_side(side: u64) -> bool
    ensures { result ≡ bad_side side }
{
    if side == 0 {
        return true;
    }
    side > MAX_DIMENSION as u64
}

// A side of the size is 0 or above the limit: number 1 of one size. Rules out: only the width tested; half of the width tested.
pub fn bad_size(size: Dimensions) -> bool
    ensures { result ≡ bad_size size }
{
    if bad_side(size.width as u64) {
        return true;
    }
    bad_side(size.height as u64)
}

// A side of a scaled size: as asked, or derived from the other side where it is 0.
fn derived(own: u32, across: u32, side: u32, other: u64) -> u64
    requires { (own ≤ max_side) × (1 ≤ across) × (across ≤ max_side) × (other ≤ 2 ^ 47) }
    ensures { result ≡ derived_side own across side other }
{
    if side == 0 {
        return (own as u64 * other + (across as u64 - 1)) / across as u64;
    }
    side as u64
}

impl Dimensions {
    // The Rust's Dimensions::new. Rules out: only the width tested; the sides exchanged.
    pub fn new(width: u32, height: u32) -> Result<Dimensions, Refusal>
        ensures number { answer_number result ≡ size_number (size_of width height) }
        ensures size { sized_size result ≡ size_if (size_number (size_of width height)) (size_of width height) }
    {
        let size = Dimensions { width, height };
        if bad_size(size) {
            return Err(Refusal::InvalidDimensions);
        }
        Ok(size)
    }

    // The Rust's pixel_count. Rules out: a product that wraps at 32 bits; half the pixels.
    pub fn pixel_count(self) -> u64
        ensures { result ≡ self.width * self.height }
    {
        self.width as u64 * self.height as u64
    }

    // The Rust's scaled, libwebp's WebPRescalerGetScaledDimensions: an axis of 0 is derived from the other.
    // Rules out: a derived side rounded down; the ratio upside down.
    pub fn scaled(self, width: u32, height: u32) -> Result<Dimensions, Refusal>
        ensures number { answer_number result ≡ scaled_number self width height }
        ensures size { sized_size result ≡ size_if (scaled_number self width height) (scaled_size self width height) }
    {
        if bad_size(self) {
            return Err(Refusal::InvalidDimensions);
        }
        let w = derived(self.width, self.height, width, height as u64);
        let h = derived(self.height, self.width, height, w);
        if bad_side(w) {
            return Err(Refusal::InvalidDimensions);
        }
        if bad_side(h) {
            return Err(Refusal::InvalidDimensions);
        }
        Ok(Dimensions {
            width: w as u32,
            height: h as u32,
        })
    }
}

impl Rect {
    // The Rust's Rect::new: the crop is tested where it is used. Rules out: x at both places of the corner; a crop as high as it is wide.
    pub fn new(x: u32, y: u32, width: u32, height: u32) -> Rect
        ensures { result ≡ rect_of x y width height }
    {
        Rect {
            x,
            y,
            width,
            height,
        }
    }
}
