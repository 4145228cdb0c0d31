// The header of a PAM picture as the writer writes it (SCOPE, "PAM").
#![tactic(auto)]

ghost use Rattle.std.specs.Prelude.{◌≡◌, length};
ghost use Rattle.pixels.specs.Refusals.{answer_number};
ghost use Rattle.pixels.specs.Sizes.{size_number};
ghost use Rattle.pam_heading.specs.Heading.{heading, length_bytes, bytes_if, heading_number, heading_out};

use pam_decimal::{digits_of, put_decimal};
use pam_put::put;
use pixels::{Dimensions, Refusal, bad_size};

// 63 bytes and the digits of both sides.
#[tactic(auto, using(crate::proofs::Chain::heading_length, pam_decimal::proofs::Decimals::some_digits))]
fn heading_length(size: Dimensions) -> usize
    ensures { result ≡ length (heading size) }
{
    63 + digits_of(size.width) + digits_of(size.height)
}

#[tactic(auto, using(pam_decimal::proofs::Decimals::some_digits))]
fn put_heading(size: Dimensions, out: &mut [u8])
    requires { length out.old ≡ length (heading size) }
    ensures { out.new ≡ heading size }
{
    put(out, 0, b"P7\nWIDTH ");
    put_decimal(out, 9, size.width);
    let a = 9 + digits_of(size.width);
    put(out, a, b"\nHEIGHT ");
    put_decimal(out, a + 8, size.height);
    let b = a + 8 + digits_of(size.height);
    put(
        out,
        b,
        b"\nDEPTH 4\nMAXVAL 255\nTUPLTYPE RGB_ALPHA\nENDHDR\n",
    );
}

// How long the header of a picture is, or 1. Rules out: the digits of the width counted twice; a line's byte 10 not counted.
pub fn pam_header_length(size: Dimensions) -> Result<usize, Refusal>
    ensures number { answer_number result ≡ size_number size }
    ensures bytes { length_bytes result ≡ bytes_if (size_number size) (length (heading size)) }
{
    if bad_size(size) {
        return Err(Refusal::InvalidDimensions);
    }
    Ok(heading_length(size))
}

// Writes the header alone: numbers 1 and 4. A program that writes row after row begins with it.
// Rules out: the height for the width; another order of the lines; a buffer that is too long passed.
pub fn pam_write_header(size: Dimensions, out: &mut [u8]) -> Result<(), Refusal>
    ensures number { answer_number result ≡ heading_number size (length out.old) }
    ensures out { out.new ≡ heading_out size out.old }
{
    if bad_size(size) {
        return Err(Refusal::InvalidDimensions);
    }
    if out.len() != heading_length(size) {
        return Err(Refusal::OutputLength);
    }
    put_heading(size, out);
    Ok(())
}
