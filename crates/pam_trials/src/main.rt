// Asks the reader of PAM pictures about inputs inside the form and outside it, every clause at every place of a line. A line for each trial: what is asked; the
// answer to the header alone, which is its number, or the size and the place of the first pixel; the answer to the whole, its number, or the size and the pixels.
// Then the writer, and what it wrote read back.
// The file `stdout` holds what tests/pam_model.py says of the same inputs.
#![tactic(auto)]

use pam_header::{PamPicture, pam_header};
use pam_parts::{head_of, tail_of};
use pam_reading::{pam_pixels, pam_size};
use pam_text::{Class, run_of};
use pixels::{Dimensions, Refusal};
use std::io;

mod accepted;
mod edges;
mod lines;
mod sizes;
mod unsupported;
mod words;
mod written;

fn main(rt: HostRuntime) -> io::Result<()> {
    accepted::trials(&rt)?;
    edges::trials(&rt)?;
    words::trials(&rt)?;
    lines::trials(&rt)?;
    unsupported::trials(&rt)?;
    sizes::trials(&rt)?;
    written::trials(&rt)
}

// Runs each trial of a list. A tilde ends a trial; no input has one.
pub(crate) fn each(rt: &impl Print, list: &[u8]) -> io::Result<()> {
    for text in list.split_inclusive(|b| *b == b'~') {
        if let Some(text) = text.strip_suffix(b"~") {
            trial(rt, text)?;
        }
    }
    Ok(())
}

// What is asked is the first line of the text, and the input what follows it.
fn trial(rt: &impl Print, text: &[u8]) -> io::Result<()> {
    let name = run_of(Class::Inside, text);
    let input = tail_of(tail_of(text, name), 1);
    rt.write_all(head_of(text, name))?;
    print!(rt; ": ")?;
    answers(rt, input)
}

// The answers to the header and to the whole.
pub(crate) fn answers(rt: &impl Print, input: &[u8]) -> io::Result<()> {
    header(rt, pam_header(input))?;
    print!(rt; " | ")?;
    whole(rt, pam_size(input))?;
    hex(rt, pam_pixels(input))?;
    println!(rt;)
}

// ---- writing

fn header(rt: &impl Print, answer: Result<Option<PamPicture>, Refusal>) -> io::Result<()> {
    match answer {
        Ok(Some(PamPicture { size, start })) => {
            sides(rt, size)?;
            print!(rt; " at {start}")
        }
        Ok(None) => print!(rt; "11 unfinished"),
        Err(why) => number(rt, why),
    }
}

fn whole(rt: &impl Print, answer: Result<Dimensions, Refusal>) -> io::Result<()> {
    match answer {
        Ok(size) => {
            sides(rt, size)?;
            print!(rt; ", ")
        }
        Err(why) => number(rt, why),
    }
}

pub(crate) fn sides(rt: &impl Print, size: Dimensions) -> io::Result<()> {
    let width = size.width;
    let height = size.height;
    print!(rt; "{width} by {height}")
}

pub(crate) fn number(rt: &impl Print, why: Refusal) -> io::Result<()> {
    let number = why.number();
    print!(rt; "{number}")
}

pub(crate) fn hex(rt: &impl Print, bytes: &[u8]) -> io::Result<()> {
    for byte in bytes {
        print!(rt; "{byte:02x}")?;
    }
    Ok(())
}
