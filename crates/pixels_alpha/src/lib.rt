// The alpha of whole pictures (SCOPE, "Lanes" and "Beside the job"; the Rust: Image::new's flag and Image::apply_alpha_plane).
#![tactic(auto)]

ghost use Rattle.std.specs.Prelude.{◌≡◌, ◌*◌, ◌/◌, length};
ghost use Rattle.pixels.specs.Refusals.{answer_number, flagged_flag};
ghost use Rattle.pixels.specs.Sizes.{pixel_lanes};
ghost use Rattle.pixels_alpha.specs.Alpha.{has_alpha, picture_number, picture_flag, with_alpha, alpha_number, alpha_pixels, alpha_flag};

use pixels::{Dimensions, PIXEL_LANES, Refusal, bad_size};
use pixels_layout::PixelLayout;
use pixels_sizes::wrong_length;

// The alpha flag of packed pixels; bytes after the last whole pixel are ignored. Rules out: a flag that looks at a colour; one that looks at half the pixels.
pub fn has_alpha(layout: PixelLayout, bytes: &[u8]) -> bool
    ensures { result ≡ has_alpha layout bytes.now (length bytes.now / pixel_lanes) }
{
    let a = layout.alpha_byte_offset();
    let n = bytes.len() / PIXEL_LANES;
    for i in 0..n {
        let at = PIXEL_LANES * i + a;
        if bytes[at] != 255 {
            return true;
        }
    }
    false
}

// Numbers 1 and 3, in that order, of a picture of the size in n bytes. Rules out: 3 told before 1; a bad size told 3.
pub fn check_picture(size: Dimensions, n: usize) -> Result<(), Refusal>
    ensures { answer_number result ≡ picture_number size n }
{
    if bad_size(size) {
        return Err(Refusal::InvalidDimensions);
    }
    if wrong_length(n, size) {
        return Err(Refusal::PixelBufferMismatch);
    }
    Ok(())
}

// The same, then 3 of a plane of m bytes.
fn check_alpha(size: Dimensions, n: usize, m: usize) -> Result<(), Refusal>
    ensures { answer_number result ≡ alpha_number size n m }
{
    check_picture(size, n)?;
    if m as u64 != size.pixel_count() {
        return Err(Refusal::PixelBufferMismatch);
    }
    Ok(())
}

// The flag of a picture, as the Rust's Image::new derives it. Rules out: the flag of one layout for all; the flag turned round.
pub fn picture_has_alpha(
    size: Dimensions,
    layout: PixelLayout,
    pixels: &[u8],
) -> Result<bool, Refusal>
    ensures number { answer_number result ≡ picture_number size (length pixels.now) }
    ensures flag { flagged_flag result ≡ picture_flag size layout pixels.now }
{
    check_picture(size, pixels.len())?;
    let flag = has_alpha(layout, pixels);
    Ok(flag)
}

// Writes the plane's bytes to the alpha places.
fn put_alpha(layout: PixelLayout, pixels: &mut [u8], plane: &[u8])
    requires { length pixels.old ≡ pixel_lanes * length plane.now }
    ensures { pixels.new ≡ with_alpha layout pixels.old plane.now }
{
    let alpha = layout.alpha_byte_offset();
    for i in 0..plane.len() {
        let to = PIXEL_LANES * i + alpha;
        pixels[to] = plane[i];
    }
}

// The Rust's apply_alpha_plane: writes only alpha bytes, and returns the flag of the picture so made.
// Rules out: a colour written; the plane's first byte written everywhere.
pub fn apply_alpha_plane(
    size: Dimensions,
    layout: PixelLayout,
    pixels: &mut [u8],
    plane: &[u8],
) -> Result<bool, Refusal>
    ensures number { answer_number result ≡ alpha_number size (length pixels.old) (length plane.now) }
    ensures flag { flagged_flag result ≡ alpha_flag size layout pixels.old plane.now }
    ensures pixels { pixels.new ≡ alpha_pixels size layout pixels.old plane.now }
{
    check_alpha(size, pixels.len(), plane.len())?;
    put_alpha(layout, pixels, plane);
    Ok(has_alpha(layout, pixels))
}
