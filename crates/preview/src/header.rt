// The header of a PAM picture: read byte by byte, so that no byte of a pixel is read with it, and written to where a preview goes.
ghost use Rattle.std.specs.Prelude.{◌<◌, length};

use crate::{Named, Stopped, say, say_refusal, stop, write_to};
use pam_header::pam_header;
use pam_heading::{pam_header_length, pam_write_header};
use pam_parts::head_of;
use pixels::{Dimensions, Refusal};
use std::io::Read;

// What a header is read from: standard input, or the badge's file.
#[derive(Clone, Copy)]
pub enum Source {
    Input,
    Badge,
}

// ---- what is said

// Whether the first line is P7, or, cut off, a beginning of that.
fn opens(text: &[u8]) -> bool {
    b"P7\n".starts_with(head_of(text, 3))
}

// The line for what is read.
fn say_of(rt: &HostRuntime, from: Source, input: &[u8], badge: &[u8]) {
    match from {
        Source::Input => say(rt, input),
        Source::Badge => say(rt, badge),
    }
}

// The same, where the first line is P7.
fn say_of_pam(rt: &HostRuntime, from: Source, text: &[u8], input: &[u8], badge: &[u8]) {
    if opens(text) {
        say_of(rt, from, input, badge);
        return;
    }
    say_of(
        rt,
        from,
        b"preview: the input is not a PAM picture: its first line is not P7 (pngtopam -alphapam makes one of a PNG; --raw takes rows without a header)\n",
        b"preview: the badge is not a PAM picture: its first line is not P7\n",
    );
}

// Where what is read ends.
fn say_cut(rt: &HostRuntime, from: Source, text: &[u8]) {
    if text.is_empty() {
        say_of(
            rt,
            from,
            b"preview: the input is empty: there is no PAM picture\n",
            b"preview: the badge is empty: there is no PAM picture\n",
        );
        return;
    }
    say_of_pam(
        rt,
        from,
        text,
        b"preview: the input ends inside the PAM header\n",
        b"preview: the badge ends inside the PAM header\n",
    );
}

fn say_malformed(rt: &HostRuntime, from: Source, text: &[u8]) {
    say_of_pam(
        rt,
        from,
        text,
        b"preview: the PAM header is outside the form: a line is wrong, unknown, missing or given twice\n",
        b"preview: the PAM header of the badge is outside the form: a line is wrong, unknown, missing or given twice\n",
    );
}

fn say_unsupported(rt: &HostRuntime, from: Source) {
    say_of(
        rt,
        from,
        b"preview: the PAM picture is of another kind: only DEPTH 4, MAXVAL 255, TUPLTYPE RGB_ALPHA is taken, as pngtopam -alphapam writes it of a colour PNG (16 bits: pamdepth 255)\n",
        b"preview: the PAM picture of the badge is of another kind: only DEPTH 4, MAXVAL 255, TUPLTYPE RGB_ALPHA is taken\n",
    );
}

// A header that is right but for its sides.
fn say_side(rt: &HostRuntime, from: Source, why: Refusal) {
    match from {
        Source::Input => say_refusal(rt, why),
        Source::Badge => say(rt, b"preview: a side of the badge is 0 or above 16384\n"),
    }
}

fn say_refused(rt: &HostRuntime, from: Source, text: &[u8], why: Refusal) {
    match why {
        Refusal::PamMalformed => say_malformed(rt, from, text),
        Refusal::PamUnsupported => say_unsupported(rt, from),
        _ => say_side(rt, from, why),
    }
}

// ---- reading

// What the bytes so far say: the size that a whole header says, none of a beginning.
fn judge(rt: &HostRuntime, from: Source, text: &[u8]) -> Result<Option<Dimensions>, Stopped> {
    match pam_header(text) {
        Err(why) => {
            say_refused(rt, from, text, why);
            Err(Stopped)
        }
        Ok(None) => Ok(None),
        Ok(Some(picture)) => Ok(Some(picture.size)),
    }
}

// Reads the byte at place n; at the end of a line asks what the header says.
fn read_byte(
    rt: &HostRuntime,
    from: Source,
    input: &mut impl Read,
    text: &mut [u8],
    n: usize,
) -> Result<Option<Dimensions>, Stopped>
    requires { n < length text.old }
{
    let mut byte = [0u8; 1];
    if input.read_exact(&mut byte).is_err() {
        say_cut(rt, from, head_of(text, n));
        return Err(Stopped);
    }
    text[n] = byte[0];
    if byte[0] != b'\n' {
        return Ok(None);
    }
    judge(rt, from, head_of(text, n + 1))
}

// Reads a header of at most 4,096 bytes.
pub(crate) fn read_header(
    rt: &HostRuntime,
    from: Source,
    input: &mut impl Read,
) -> Result<Dimensions, Stopped> {
    let mut text = [0u8; 4096];
    for n in 0..4096 {
        if let Some(size) = read_byte(rt, from, input, &mut text, n)? {
            return Ok(size);
        }
    }
    say_of_pam(
        rt,
        from,
        &text,
        b"preview: the PAM header is longer than the 4096 bytes that are read\n",
        b"preview: the PAM header of the badge is longer than the 4096 bytes that are read\n",
    );
    Err(Stopped)
}

// ---- writing

// Fills the buffer, which has the header's length, and writes it.
fn put_header(
    rt: &HostRuntime,
    to: &Option<Named>,
    size: Dimensions,
    out: &mut [u8],
) -> Result<(), Stopped> {
    pam_write_header(size, out).map_err(|why| stop(rt, why))?;
    write_to(rt, to, out)
}

// Writes the header of a picture of this size, at most 73 bytes.
pub(crate) fn write_header(
    rt: &HostRuntime,
    to: &Option<Named>,
    size: Dimensions,
) -> Result<(), Stopped> {
    let mut text = [0u8; 73];
    match pam_header_length(size) {
        Err(why) => Err(stop(rt, why)),
        Ok(n) => put_header(rt, to, size, &mut text[..n]),
    }
}
