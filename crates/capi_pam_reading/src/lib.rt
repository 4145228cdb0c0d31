// The library for C (include/jonquilsaw.h), the reader of PAM pictures: numbers and slices only. In C a slice is a pointer, then a count of elements.
// Every function answers for all arguments: 0 where the call was accepted, SCOPE's number where it was refused, and BOUNDARY for what only
// this boundary can be asked, tested first.
#![tactic(auto)]

ghost use Rattle.std.specs.Prelude.{◌≡◌, length};
ghost use Rattle.pam_header.specs.Header.{answer_unfinished};
ghost use Rattle.capi_words.specs.Words.{flag_word};
ghost use Rattle.capi_pam_reading.specs.PamReading.{number_of_read_pam_header, answer_after_read_pam_header, number_of_pam_unfinished, flag_after_pam_unfinished, number_of_read_pam, size_after_read_pam};

use capi_words::{BOUNDARY, flag_word, store};
use pam_header::{PamPicture, pam_header};
use pam_reading::pam_size;
use pixels::Refusal;

// A header that is not finished, as a word.
fn unfinished_word(header: Result<Option<PamPicture>, Refusal>) -> u32
    ensures { result ≡ flag_word (answer_unfinished header) }
{
    flag_word(matches!(header, Ok(None)))
}

// ---- the exported functions

// What a header says, in four lent words: width, height, and the place where the pixels begin, its low word first.
// Rules out: the low and the high word of the place exchanged; a header that is not finished told as another kind, 12.
#[unsafe(no_mangle)]
pub extern "C" fn jonquilsaw_read_pam_header(input: &[u8], answer: &mut [u32]) -> u32
    ensures number { result ≡ number_of_read_pam_header input.now (length answer.old) }
    ensures answer { answer.new ≡ answer_after_read_pam_header input.now answer.old }
{
    if answer.len() < 4 {
        return BOUNDARY;
    }
    match pam_header(input) {
        Err(why) => why.number(),
        Ok(None) => Refusal::PamMalformed.number(),
        Ok(Some(picture)) => {
            let size = picture.size;
            let low = (picture.start % 4294967296) as u32;
            let high = (picture.start / 4294967296) as u32;
            store(&[size.width, size.height, low, high], answer);
            0
        }
    }
}

// Whether the input is the beginning of a header, 0 or 1, in one lent word: what follows may make a picture of it.
// Rules out: every refusal taken for a beginning; 0 told where no word was lent.
#[unsafe(no_mangle)]
pub extern "C" fn jonquilsaw_pam_unfinished(input: &[u8], flag: &mut [u32]) -> u32
    ensures number { result ≡ number_of_pam_unfinished (length flag.old) }
    ensures flag { flag.new ≡ flag_after_pam_unfinished input.now flag.old }
{
    if flag.len() < 1 {
        return BOUNDARY;
    }
    store(&[unfinished_word(pam_header(input))], flag);
    0
}

// The size of a PAM picture, width and height in two lent words; its pixels are the last 4 × width × height bytes of the input.
// Rules out: the two words exchanged; a size stored where one word is lent.
#[unsafe(no_mangle)]
pub extern "C" fn jonquilsaw_read_pam(input: &[u8], size: &mut [u32]) -> u32
    ensures number { result ≡ number_of_read_pam input.now (length size.old) }
    ensures size { size.new ≡ size_after_read_pam input.now size.old }
{
    if size.len() < 2 {
        return BOUNDARY;
    }
    match pam_size(input) {
        Err(why) => why.number(),
        Ok(d) => {
            store(&[d.width, d.height], size);
            0
        }
    }
}
