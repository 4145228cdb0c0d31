// One column made taller: span 1, for a target one or two wide.
use crate::planes::size;
use crate::{begin, begun, count_line, hex_line, job_lines, picture_line, turns, whole};
use job_start::start_plane;
use pixels::Dimensions;
use std::io;

pub(crate) fn trials(rt: &impl Print) -> io::Result<()> {
    one_pixel(rt)?;
    blended(rt)?;
    tall(rt, &[10, 20, 30, 255])?;
    tall(rt, &[200, 100, 50, 128])?;
    forged(rt)
}

fn one_pixel(rt: &impl Print) -> io::Result<()> {
    // "Opaque 1 by 1 to 1 by 2: the pixel twice"
    picture(rt, size(1, 1), size(1, 2), &[10, 20, 30, 255])?;
    // "Colour 200, alpha 128 to 1 by 2: 199, 128 twice"
    picture(rt, size(1, 1), size(1, 2), &[200, 200, 200, 128])
}

// "1 by 2, opaque, lanes 10, 21, to 1 by 3: 10, 16, 21", and to two columns
fn blended(rt: &impl Print) -> io::Result<()> {
    picture(
        rt,
        size(1, 2),
        size(1, 3),
        &[10, 10, 10, 255, 21, 21, 21, 255],
    )?;
    picture(
        rt,
        size(1, 2),
        size(2, 3),
        &[10, 10, 10, 255, 21, 21, 21, 255],
    )
}

fn picture(
    rt: &impl Print,
    source: Dimensions,
    target: Dimensions,
    pixels: &[u8],
) -> io::Result<()> {
    let mut work = [7u32; 16];
    let mut out = [1u8; 24];
    let fresh = begin(rt, source, target, &mut work)?;
    let done = turns(fresh, 64, 1, 0, pixels, &mut work, &mut out);
    job_lines(rt, done, &out)
}

// One pixel made 16,384 high: the first row, and how many of the 65,536 bytes are as in it.
fn tall(rt: &impl Print, pixel: &[u8]) -> io::Result<()> {
    let mut work = [7u32; 8];
    let mut out = [1u8; 65536];
    let fresh = begin(rt, size(1, 1), size(1, 16384), &mut work)?;
    let done = turns(fresh, 16384, 1, 0, pixel, &mut work, &mut out);
    picture_line(rt, 4, 1, &out)?;
    println!(rt; "{}", repeated(&out))?;
    count_line(rt, done)
}

// How many bytes are as those of the first pixel.
fn repeated(bytes: &[u8]) -> usize {
    (0..bytes.len())
        .filter(|&i| bytes[i] == bytes[i % 4])
        .count()
}

// Work values that no row made: one above 255 is cut at 255, however large.
fn forged(rt: &impl Print) -> io::Result<()> {
    let mut work = [0u32; 8];
    let source = size(1, 1);
    let started = start_plane(source, 4, whole(source), size(1, 2), &mut work);
    let fresh = begun(rt, started, source, source)?;
    let full = fresh.offer(&[1, 2, 3, 4], &mut work).next;
    let mut values = [0, 0, 0, 0, 254, 256, 0x8000_0001, 0xffff_ffff];
    let mut out = [1u8; 4];
    let done = full.take(&mut out, &mut values).next;
    hex_line(rt, &out)?;
    count_line(rt, done)
}
