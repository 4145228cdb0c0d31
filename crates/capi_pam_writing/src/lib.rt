// The library for C (include/jonquilsaw.h), the writer of PAM pictures: numbers and slices only. In C a slice is a pointer, then a count of elements.
// Every function answers for all arguments: 0 where the call was accepted, SCOPE's number where it was refused, and BOUNDARY for what only
// this boundary can be asked, tested first.
#![tactic(auto)]

ghost use Rattle.std.specs.Prelude.{◌≡◌, length};
ghost use Rattle.capi_pam_writing.specs.PamWriting.{number_of_pam_length, bytes_after_pam_header_length, bytes_after_pam_length, number_of_write_pam_header, out_after_write_pam_header, number_of_write_pam, out_after_write_pam};

use capi_words::{BOUNDARY, number_of, store};
use pam_heading::{pam_header_length, pam_write_header};
use pam_writing::{pam_length, pam_write};
use pixels::Dimensions;

// How long the header of a picture is, in one lent word.
// Rules out: the picture taken for a square; a length cut at 64.
#[unsafe(no_mangle)]
pub extern "C" fn jonquilsaw_pam_header_length(width: u32, height: u32, bytes: &mut [u32]) -> u32
    ensures number { result ≡ number_of_pam_length width height (length bytes.old) }
    ensures bytes { bytes.new ≡ bytes_after_pam_header_length width height bytes.old }
{
    if bytes.len() < 1 {
        return BOUNDARY;
    }
    let header = pam_header_length(Dimensions { width, height });
    match header {
        Err(why) => why.number(),
        Ok(k) => {
            let head = k as u32;
            store(&[head], bytes);
            0
        }
    }
}

// How long the file of a picture is, in one lent word.
// Rules out: the picture taken for a square; only the low half of the word told.
#[unsafe(no_mangle)]
pub extern "C" fn jonquilsaw_pam_length(width: u32, height: u32, bytes: &mut [u32]) -> u32
    ensures number { result ≡ number_of_pam_length width height (length bytes.old) }
    ensures bytes { bytes.new ≡ bytes_after_pam_length width height bytes.old }
{
    if bytes.len() < 1 {
        return BOUNDARY;
    }
    let file = pam_length(Dimensions { width, height });
    match file {
        Err(why) => why.number(),
        Ok(n) => {
            let whole = n as u32;
            store(&[whole], bytes);
            0
        }
    }
}

// Writes the header alone: a program that writes row after row begins with it.
// Rules out: the picture taken for a square; the sides exchanged.
#[unsafe(no_mangle)]
pub extern "C" fn jonquilsaw_write_pam_header(width: u32, height: u32, out: &mut [u8]) -> u32
    ensures number { result ≡ number_of_write_pam_header width height (length out.old) }
    ensures out { out.new ≡ out_after_write_pam_header width height out.old }
{
    let answer = pam_write_header(Dimensions { width, height }, out);
    number_of(answer)
}

// Writes a picture of Rgba8 pixels.
// Rules out: the picture taken for a square; the sides exchanged.
#[unsafe(no_mangle)]
pub extern "C" fn jonquilsaw_write_pam(
    width: u32,
    height: u32,
    pixels: &[u8],
    out: &mut [u8],
) -> u32
    ensures number { result ≡ number_of_write_pam width height (length pixels.now) (length out.old) }
    ensures out { out.new ≡ out_after_write_pam width height pixels.now out.old }
{
    let answer = pam_write(Dimensions { width, height }, pixels, out);
    number_of(answer)
}
