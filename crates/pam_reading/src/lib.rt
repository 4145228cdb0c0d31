// The reader of PAM pictures (SCOPE, "PAM").
#![tactic(auto)]

ghost use Rattle.std.specs.Prelude.{◌≡◌, not, eqb, ◌+◌};
ghost use Rattle.pixels.specs.Refusals.{answer_number, sized_size};
ghost use Rattle.pixels.specs.Sizes.{pixel_lanes, picture_bytes};
ghost use Rattle.pam_reading.specs.Reading.{pam_number, pam_size, pam_pixels};

use pam_header::pam_header;
use pam_parts::tail_of;
use pixels::{Dimensions, Refusal};
use pixels_sizes::wrong_length;

// Of n bytes, those from the start on are not exactly a picture of the size.
fn wrong_rest(n: usize, start: usize, size: Dimensions) -> bool
    ensures { result ≡ not (eqb n (start + picture_bytes pixel_lanes size.width size.height)) }
{
    n < start || wrong_length(n - start, size)
}

// The size of a PAM picture, or 11, 12, 1 or 3.
// Rules out: a header that is not finished told as 3; the bytes of the header counted as pixels.
pub fn pam_size(input: &[u8]) -> Result<Dimensions, Refusal>
    ensures number { answer_number result ≡ pam_number input.now }
    ensures size { sized_size result ≡ pam_size input.now }
{
    let picture = pam_header(input)?.ok_or(Refusal::PamMalformed)?;
    if wrong_rest(input.len(), picture.start, picture.size) {
        return Err(Refusal::PixelBufferMismatch);
    }
    Ok(picture.size)
}

// The pixels, in Rgba8 order: a part of the input; empty where it is refused. Kept: three lines as those of pam_size, and what they share is wrong_rest.
// Rules out: the header handed out with the pixels; the bytes of the header counted as pixels.
pub fn pam_pixels(input: &[u8]) -> &[u8]
    ensures { result.now ≡ pam_pixels input.now }
{
    match pam_header(input) {
        Err(_) => &[],
        Ok(None) => &[],
        Ok(Some(picture)) if wrong_rest(input.len(), picture.start, picture.size) => &[],
        Ok(Some(picture)) => tail_of(input, picture.start),
    }
}
