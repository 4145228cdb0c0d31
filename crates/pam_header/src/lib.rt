// The header of a PAM picture (SCOPE, "PAM"; netpbm's page of the format).
#![tactic(auto)]

ghost use Rattle.std.specs.Prelude.{◌≡◌, false};
ghost use Rattle.pam_header.specs.Header.{answer_number, answer_size, answer_start, answer_unfinished, header_number, header_size, header_start, header_unfinished};
ghost use Rattle.pam_header.specs.Inner.{verdict_number, verdict_size, verdict_start};

use pam_line::{Said, line_says};
use pam_parts::{head_of, tail_of};
use pam_seen::{Seen, State, Types, after_line};
use pam_text::{Class, run_of, same};
use pixels::{Dimensions, Refusal, bad_size};

// The depth and the maximum that the reader takes.
const DEPTH: u32 = 4;

const MAXVAL: u32 = 255;

// The size, and the place of the first byte after the header.
#[derive(Clone, Copy)]
pub struct PamPicture {
    pub size: Dimensions,
    pub start: usize,
}

// At the end of the header: a key was not given, another depth, maximum or tuple type, a side.
fn verdict(t: Seen, start: usize) -> Result<Option<PamPicture>, Refusal>
    ensures number { answer_number result ≡ verdict_number t }
    ensures size { answer_size result ≡ verdict_size t }
    ensures start { answer_start result ≡ verdict_start t start }
    ensures unfinished { answer_unfinished result ≡ false }
{
    let width = t.width.ok_or(Refusal::PamMalformed)?;
    let height = t.height.ok_or(Refusal::PamMalformed)?;
    let depth = t.depth.ok_or(Refusal::PamMalformed)?;
    let maxval = t.maxval.ok_or(Refusal::PamMalformed)?;
    if depth != DEPTH || maxval != MAXVAL || t.types != Types::RgbAlpha {
        return Err(Refusal::PamUnsupported);
    }
    let size = Dimensions { width, height };
    if bad_size(size) {
        return Err(Refusal::InvalidDimensions);
    }
    Ok(Some(PamPicture { size, start }))
}

// What the header says: the size and where the pixels begin, or 11, 12 or 1; `None` for a beginning of a header, in which every line is inside the
// form and none is the end: it is refused as outside the form where nothing follows. A beginning of the input will do: any answer but `Ok(None)` to one that
// holds the first line is the answer to the whole input (`settled` of proofs/Longer).
// Rules out: another first line; a last line without its byte 10 read; a missing depth told as 12; a depth below 4, a maximum above 255, no tuple type
// passed; only the width tested; pixels that begin at the end of the first line.
pub fn pam_header(input: &[u8]) -> Result<Option<PamPicture>, Refusal>
    ensures number { answer_number result ≡ header_number input.now }
    ensures size { answer_size result ≡ header_size input.now }
    ensures start { answer_start result ≡ header_start input.now }
    ensures unfinished { answer_unfinished result ≡ header_unfinished input.now }
{
    let first = run_of(Class::Inside, input);
    if input.len() <= first || !same(head_of(input, first), b"P7") {
        return Err(Refusal::PamMalformed);
    }
    let mut t = Seen {
        width: None,
        height: None,
        depth: None,
        maxval: None,
        types: Types::Missing,
        state: State::GoesOn,
    };
    let mut start = first + 1;
    // Kept: (d) split would hand out the last bytes as a line too, where no byte 10 ends them, and would not tell where the pixels start.
    loop {
        let tail = tail_of(input, start);
        let n = run_of(Class::Inside, tail);
        if tail.len() <= n {
            return Ok(None);
        }
        let said = line_says(head_of(tail, n));
        start = start + n + 1;
        // Kept: after_line would leave t as it is, but copies it: a header may have many such lines.
        if matches!(said, Said::Nothing) {
            continue;
        }
        t = after_line(t, said);
        match t.state {
            State::GoesOn => {}
            State::Ended => return verdict(t, start),
            State::Outside => return Err(Refusal::PamMalformed),
        }
    }
}
