// The writer of PAM pictures (SCOPE, "PAM").
#![tactic(auto)]

ghost use Rattle.std.specs.Prelude.{◌≡◌, length};
ghost use Rattle.pixels.specs.Refusals.{answer_number};
ghost use Rattle.pixels.specs.Sizes.{size_number};
ghost use Rattle.pam_heading.specs.Heading.{length_bytes, bytes_if};
ghost use Rattle.pam_writing.specs.Writing.{file_bytes, write_number, write_out};

use pam_heading::{pam_header_length, pam_write_header};
use pam_put::put;
use pixels::{Dimensions, PIXEL_LANES, Refusal};
use pixels_sizes::wrong_length;

// How long the file of a picture is, or 1. Rules out: the header not counted; three bytes to a pixel.
#[tactic(auto, using(crate::proofs::Writing::area_most, crate::proofs::Writing::header_most, crate::proofs::Writing::length_stays, crate::proofs::Writing::length_told))]
pub fn pam_length(size: Dimensions) -> Result<usize, Refusal>
    ensures number { answer_number result ≡ size_number size }
    ensures bytes { length_bytes result ≡ bytes_if (size_number size) (file_bytes size) }
{
    let header = pam_header_length(size)?;
    Ok(header + PIXEL_LANES * (size.width as usize) * (size.height as usize))
}

// Numbers 1, 3 and 4, in this order, of n bytes of pixels and m of output.
#[tactic(auto, using(crate::proofs::Writing::write_stays, crate::proofs::Writing::write_short, crate::proofs::Writing::write_other, crate::proofs::Writing::write_passes))]
fn check_write(size: Dimensions, n: usize, m: usize) -> Result<(), Refusal>
    ensures { answer_number result ≡ write_number size n m }
{
    let k = pam_length(size)?;
    if wrong_length(n, size) {
        return Err(Refusal::PixelBufferMismatch);
    }
    if m != k {
        return Err(Refusal::OutputLength);
    }
    Ok(())
}

// Writes a picture of Rgba8 pixels: the header, then the pixels. Numbers 1, 3 and 4.
// Rules out: 4 told for pixels of another length; a buffer that is too long passed; the pixels over the header.
pub fn pam_write(size: Dimensions, pixels: &[u8], out: &mut [u8]) -> Result<(), Refusal>
    ensures number { answer_number result ≡ write_number size (length pixels.now) (length out.old) }
    ensures out { out.new ≡ write_out size pixels.now out.old }
{
    check_write(size, pixels.len(), out.len())?;
    let k = out.len() - pixels.len();
    let header = pam_write_header(size, &mut out[..k]);
    put(out, k, pixels);
    header
}
