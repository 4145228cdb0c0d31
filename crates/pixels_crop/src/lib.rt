// The crop (SCOPE, "Lanes" and "Beside the job"; the Rust: crop of geometry.rs): the window of a row, and whole pictures.
#![tactic(auto)]

ghost use Rattle.std.specs.Prelude.{◌≡◌, ◌++◌, ◌+◌, ◌*◌, ◌≤◌, length, take, drop};
ghost use Rattle.pixels.specs.Refusals.{answer_number, flagged_flag};
ghost use Rattle.pixels.specs.Sizes.{pixel_lanes, picture_bytes, Fits};
ghost use Rattle.pixels_crop.specs.Crop.{window_of, cropped, crop_number, crop_flag, crop_out};

use pixels::{Dimensions, PIXEL_LANES, Rect, Refusal};
use pixels_alpha::has_alpha;
use pixels_layout::PixelLayout;
use pixels_sizes::{check_sizes, wrong_length};

// The crop window of a row of any lane count: width pixels from pixel x on, a part of that same row; the empty part where they do not lie in it.
// Rules out: a window too far to the left; one that ends with its row lost.
pub fn window(lanes: u32, row: &[u8], x: u32, width: u32) -> &[u8]
    ensures { result.now ≡ window_of lanes row.now x width }
{
    let at = lanes as usize * x as usize;
    let len = lanes as usize * width as usize;
    if row.len() < at {
        return &row[0..0];
    }
    if row.len() - at < len {
        return &row[0..0];
    }
    &row[at..at + len]
}

// Copies src into out from at on.
fn copy_at(out: &mut [u8], at: usize, src: &[u8])
    requires { at + length src.now ≤ length out.old }
    ensures { out.new ≡ take at out.old ++ (src.now ++ drop (at + length src.now) out.old) }
{
    // Kept, as in pam_put: with copy_from_slice the archive for C would need memmove from outside.
    for i in 0..src.len() {
        out[at + i] = src[i];
    }
}

// Copies the rows of a crop that fits, each the window of its source row.
fn crop_into(source: Dimensions, rect: Rect, pixels: &[u8], out: &mut [u8])
    requires { Fits source rect source × (length pixels.now ≡ picture_bytes pixel_lanes source.width source.height) × (length out.old ≡ picture_bytes pixel_lanes rect.width rect.height) }
    ensures { out.new ≡ cropped source rect pixels.now }
{
    for i in 0..rect.height as usize {
        let w = PIXEL_LANES * (source.width as usize);
        let at = w * (rect.y as usize + i);
        let to = PIXEL_LANES * (rect.width as usize) * i;
        copy_at(
            out,
            to,
            window(PIXEL_LANES as u32, &pixels[at..at + w], rect.x, rect.width),
        );
    }
}

// Numbers 1 to 4, ascending, of n bytes of pixels and m of output.
fn check_crop(source: Dimensions, rect: Rect, n: usize, m: usize) -> Result<(), Refusal>
    ensures { answer_number result ≡ crop_number source rect n m }
{
    check_sizes(source, rect, source)?;
    let size = Dimensions {
        width: rect.width,
        height: rect.height,
    };
    if wrong_length(n, source) {
        return Err(Refusal::PixelBufferMismatch);
    }
    if wrong_length(m, size) {
        return Err(Refusal::OutputLength);
    }
    Ok(())
}

// The Rust's crop. Rules out: rows of the crop from the source's left edge; 3 told for the output's length, 4 before 3; every crop refused; the flag turned round.
pub fn crop(
    source: Dimensions,
    layout: PixelLayout,
    pixels: &[u8],
    rect: Rect,
    out: &mut [u8],
) -> Result<bool, Refusal>
    ensures number { answer_number result ≡ crop_number source rect (length pixels.now) (length out.old) }
    ensures flag { flagged_flag result ≡ crop_flag source layout rect pixels.now (length out.old) }
    ensures out { out.new ≡ crop_out source rect pixels.now out.old }
{
    check_crop(source, rect, pixels.len(), out.len())?;
    crop_into(source, rect, pixels, out);
    Ok(has_alpha(layout, out))
}
