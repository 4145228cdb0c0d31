// The tests of sizes and lengths that calls share (SCOPE, numbers 1 to 4 and 10 of "Why a call is turned away").
#![tactic(auto)]

ghost use Rattle.std.specs.Prelude.{◌≡◌, not, eqb};
ghost use Rattle.pixels.specs.Refusals.{answer_number};
ghost use Rattle.pixels.specs.Sizes.{pixel_lanes, picture_bytes, bad_sizes, crop_beyond, bad_lanes, sizes_number};

use pixels::{Dimensions, MAX_LANES, PIXEL_LANES, Rect, Refusal, bad_size};

// Number 1 of a source, its crop and a target. Rules out: an empty crop let through; the target not tested.
pub fn wrong_sizes(source: Dimensions, crop: Rect, target: Dimensions) -> bool
    ensures { result ≡ bad_sizes source crop target }
{
    if bad_size(source) {
        return true;
    }
    if bad_size(target) {
        return true;
    }
    if crop.width == 0 {
        return true;
    }
    crop.height == 0
}

// Number 2. Rules out: a right edge summed with wrapping; a crop that reaches the bottom edge refused.
pub fn crop_beyond(crop: Rect, source: Dimensions) -> bool
    ensures { result ≡ crop_beyond crop source }
{
    if (source.width as u64) < crop.x as u64 + crop.width as u64 {
        return true;
    }
    (source.height as u64) < crop.y as u64 + crop.height as u64
}

// Numbers 1 and 2 of a source, its crop and a target: crop, resize and the record rules ask here.
// Rules out: 2 told before 1; every size refused.
pub fn check_sizes(source: Dimensions, crop: Rect, target: Dimensions) -> Result<(), Refusal>
    ensures { answer_number result ≡ sizes_number source crop target }
{
    if wrong_sizes(source, crop, target) {
        return Err(Refusal::InvalidDimensions);
    }
    if crop_beyond(crop, source) {
        return Err(Refusal::CropOutOfBounds);
    }
    Ok(())
}

// A plane of no lanes, or of more than MAX_LANES: number 10. Rules out: a plane of no lanes passed; one of four refused.
pub fn bad_lanes(lanes: u32) -> bool
    ensures { result ≡ bad_lanes lanes }
{
    if lanes == 0 {
        return true;
    }
    lanes > MAX_LANES
}

// Another number of bytes than those of a picture of the size. Rules out: three bytes to a pixel; trailing bytes passed.
pub fn wrong_length(n: usize, size: Dimensions) -> bool
    ensures { result ≡ not (eqb n (picture_bytes pixel_lanes size.width size.height)) }
{
    if n % PIXEL_LANES != 0 {
        return true;
    }
    (n / PIXEL_LANES) as u64 != size.pixel_count()
}
