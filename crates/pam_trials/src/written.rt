// The writer: how long a file is, what is written and how it reads back, and the numbers 1, 3 and 4.
use crate::{answers, hex, number, sides};
use pam_writing::{pam_length, pam_write};
use pixels::{Dimensions, Refusal};
use std::io;

pub(crate) fn trials(rt: &impl Print) -> io::Result<()> {
    lengths(rt)?;
    pictures(rt)?;
    refusals(rt)
}

// A side of a digit more, the largest picture, and 1.
fn lengths(rt: &impl Print) -> io::Result<()> {
    length(rt, 9, 10)?;
    length(rt, 99, 100)?;
    length(rt, 16384, 16384)?;
    length(rt, 0, 1)?;
    length(rt, 1, 16385)
}

fn pictures(rt: &impl Print) -> io::Result<()> {
    written(rt, 2, 1, b"abcdefgh", &mut [7; 73])?;
    written(rt, 1, 2, b"\n#\x00\xff~P7\n", &mut [7; 73])?;
    written(
        rt,
        10,
        1,
        b"abcdefghijklmnopqrstuvwxyzABCDEFGHIJKLMN",
        &mut [7; 106],
    )
}

fn refusals(rt: &impl Print) -> io::Result<()> {
    // 1
    written(rt, 0, 1, b"", &mut [7; 65])?;
    written(rt, 1, 16385, b"abcd", &mut [7; 8])?;
    // 3
    written(rt, 2, 1, b"abcdefg", &mut [7; 73])?;
    written(rt, 2, 1, b"abcdefghi", &mut [7; 74])?;
    // 4
    written(rt, 2, 1, b"abcdefgh", &mut [7; 72])?;
    written(rt, 2, 1, b"abcdefgh", &mut [7; 74])?;
    // 1 ahead of 3, 3 ahead of 4
    written(rt, 0, 1, b"abcd", &mut [7; 1])?;
    written(rt, 2, 1, b"abcd", &mut [7; 1])
}

fn length(rt: &impl Print, width: u32, height: u32) -> io::Result<()> {
    let size = Dimensions { width, height };
    print!(rt; "length of ")?;
    sides(rt, size)?;
    print!(rt; ": ")?;
    length_line(rt, pam_length(size))
}

fn length_line(rt: &impl Print, answer: Result<usize, Refusal>) -> io::Result<()> {
    match answer {
        Ok(n) => println!(rt; "{n} bytes"),
        Err(why) => {
            number(rt, why)?;
            println!(rt;)
        }
    }
}

// The number, the output byte by byte, and what the reader says of it. An output that was refused is as it was.
fn written(
    rt: &impl Print,
    width: u32,
    height: u32,
    pixels: &[u8],
    out: &mut [u8],
) -> io::Result<()> {
    let size = Dimensions { width, height };
    asked(rt, size, pixels.len(), out.len())?;
    told(rt, pam_write(size, pixels, out))?;
    hex(rt, out)?;
    print!(rt; " | ")?;
    answers(rt, out)
}

fn asked(rt: &impl Print, size: Dimensions, bytes: usize, room: usize) -> io::Result<()> {
    print!(rt; "write ")?;
    sides(rt, size)?;
    print!(rt; " of {bytes} bytes into {room}: ")
}

fn told(rt: &impl Print, answer: Result<(), Refusal>) -> io::Result<()> {
    match answer {
        Ok(()) => print!(rt; "0 "),
        Err(why) => {
            number(rt, why)?;
            print!(rt; " ")
        }
    }
}
