// Runs the trials of SCOPE that are not proved, the edges of fixed point, matte and restore, one job offered in three ways, dividers, and planes. The file
// `stdout` holds what SCOPE says: numbers in hexadecimal; pixels too, byte after byte; a size as width and height.
#![tactic(auto)]

ghost use Rattle.std.specs.Prelude.{◌≤◌};

use job::Job;
use job_rules::{Kind, Plan, row_bytes};
use job_start::start;
use pixels::{Dimensions, PIXEL_LANES, Rect, Refusal};
use pixels_layout::PixelLayout;
use planes::size;
use std::io;

mod dividers;
mod planes;
mod turned_away;

fn main(rt: HostRuntime) -> io::Result<()> {
    mattes(&rt)?;
    restores(&rt)?;
    fractions(&rt)?;
    whites(&rt)?;
    sizes(&rt)?;
    small_cuts(&rt)?;
    large_cuts(&rt)?;
    dividers::trials(&rt)?;
    planes::trials(&rt)?;
    turned_away::trials(&rt)
}

// ---- numbers

fn mattes(rt: &impl Print) -> io::Result<()> {
    // colour 200 under alpha 128: matted 100, restored 199
    word_line(rt, arithmetic::matte(200, 128))?;
    word_line(rt, arithmetic::mult_argb(0x8000_00c8, false))?;
    word_line(rt, arithmetic::mult_argb(0x8000_0064, true))
}

fn restores(rt: &impl Print) -> io::Result<()> {
    // a restored colour stops at 255 in its own lane, and the alpha stays
    word_line(rt, arithmetic::mult_argb(0x0100_0002, true))?;
    word_line(rt, arithmetic::mult_argb(0x01ff_0000, true))?;
    word_line(rt, arithmetic::mult_argb(0x0203_0102, true))?;
    // alpha 255 unchanged, alpha 0 gives 0
    word_line(rt, arithmetic::mult_argb(0xff12_3456, true))?;
    word_line(rt, arithmetic::mult_argb(0x0012_3456, false))
}

fn fractions(rt: &impl Print) -> io::Result<()> {
    // an exact 1 wraps to 0; a denominator of 0 gives 0
    word_line(rt, arithmetic::frac(1, 1))?;
    word_line(rt, arithmetic::frac(1, 0))?;
    word_line(rt, arithmetic::frac(2, 3))?;
    // a half is rounded up, or down
    word_line(rt, arithmetic::mult_fix(3, 0x8000_0000))?;
    word_line(rt, arithmetic::mult_fix_floor(3, 0x8000_0000))?;
    // a product that wraps
    word_line(rt, arithmetic::wrapping_mul(0xffff_ffff, 0xffff_fffe))
}

// ---- sizes

fn sizes(rt: &impl Print) -> io::Result<()> {
    // "1 by 16384 scaled (2,0): 1"
    scaled(rt, 1, 16384, 2, 0)?;
    scaled(rt, 3, 2, 0, 1)
}

// ---- a white picture, one row lent again and again

// "White 16384 by 1028 to 1 by 1: all 255. 16384 by 1029 to 1 by 1: all 0, the sums wrapped."
fn whites(rt: &impl Print) -> io::Result<()> {
    white(rt, 1028)?;
    white(rt, 1029)
}

fn white(rt: &impl Print, height: u32) -> io::Result<()> {
    let mut work = [0u32; 8];
    let source = size(16384, height);
    let target = size(1, 1);
    let begun = begin(rt, source, target, &mut work)?;
    let full = offer_white(begun, height, &mut work);
    take_pixel(rt, full, &mut work)
}

fn offer_white(begun: Job, times: u32, work: &mut [u32]) -> Job {
    let row = [255u8; 65536];
    offer_each(begun, times, &row, work)
}

fn take_pixel(rt: &impl Print, full: Job, work: &mut [u32]) -> io::Result<()> {
    let mut out = [1u8; 4];
    let answer = full.take(&mut out, work);
    hex_line(rt, &out)?;
    count_line(rt, answer.next)
}

fn offer_each(begun: Job, times: u32, row: &[u8], work: &mut [u32]) -> Job {
    let mut job = begun;
    for _ in 0..times {
        job = job.offer(row, work).next;
    }
    job
}

// ---- a job in cuts: 5 by 7 offered in single rows, in all rows at once and in ragged cuts: the same bytes three times

fn small_cuts(rt: &impl Print) -> io::Result<()> {
    cut(rt, 3, 4, 1, 0)?;
    cut(rt, 3, 4, 7, 0)?;
    cut(rt, 3, 4, 1, 3)
}

fn large_cuts(rt: &impl Print) -> io::Result<()> {
    cut(rt, 7, 11, 1, 0)?;
    cut(rt, 7, 11, 7, 0)?;
    cut(rt, 7, 11, 1, 3)
}

fn cut(rt: &impl Print, width: u32, height: u32, rows: u32, ragged: u32) -> io::Result<()> {
    let mut pixels = [0u8; 140];
    fill(&mut pixels);
    let target = Dimensions { width, height };
    scale_in_cuts(rt, target, rows, ragged, &pixels)
}

fn scale_in_cuts(
    rt: &impl Print,
    target: Dimensions,
    rows: u32,
    ragged: u32,
    pixels: &[u8],
) -> io::Result<()> {
    let mut work = [0u32; 56];
    let mut out = [0u8; 308];
    let source = size(5, 7);
    let begun = begin(rt, source, target, &mut work)?;
    let done = turns(begun, 64, rows, ragged, pixels, &mut work, &mut out);
    job_lines(rt, done, &out)
}

// Each turn offers a cut and takes a row; a call that is turned away leaves all as it was. 64 turns are more than 7 rows in and 11 out need.
fn turns(
    begun: Job,
    times: u32,
    rows: u32,
    ragged: u32,
    pixels: &[u8],
    work: &mut [u32],
    out: &mut [u8],
) -> Job {
    let mut job = begun;
    for i in 0..times {
        let next = offer_cut(job, cut_of(rows, ragged, i), pixels, work);
        job = take_row(next, work, out);
    }
    job
}

// The rows of cut i: always `rows`, or `rows` and up to `ragged` - 1 more.
fn cut_of(rows: u32, ragged: u32, i: u32) -> u32 {
    if ragged == 0 {
        return rows;
    }
    rows.wrapping_add(i % ragged)
}

// The next rows that the job has not accepted, at most to the picture's end.
fn offer_cut(job: Job, rows: u32, pixels: &[u8], work: &mut [u32]) -> Job {
    let row = row_bytes(job.plan, job.plan.source.width);
    let at = place(row, job.accepted, pixels.len());
    let end = place(row, job.accepted.wrapping_add(rows), pixels.len());
    if end < at {
        return job;
    }
    job.offer(&pixels[at..end], work).next
}

// The next row, at its place in the preview.
fn take_row(job: Job, work: &mut [u32], out: &mut [u8]) -> Job {
    let row = row_bytes(job.plan, job.plan.target.width);
    let at = place(row, job.taken, out.len());
    let end = place(row, job.taken.wrapping_add(1), out.len());
    if end < at {
        return job;
    }
    job.take(&mut out[at..end], work).next
}

// Where row k starts, of `row` bytes each, or the end of the bytes where that is before it.
fn place(row: usize, k: u32, len: usize) -> usize
    ensures { result ≤ len }
{
    row.saturating_mul(k as usize).min(len)
}

// Colours and alphas of every size.
fn fill(pixels: &mut [u8]) {
    for (i, byte) in pixels.iter_mut().enumerate() {
        *byte = (((i % 251) * 37 + 11) % 256) as u8;
    }
}

// ---- answers

// A fresh job with the full crop.
fn begin(
    rt: &impl Print,
    source: Dimensions,
    target: Dimensions,
    work: &mut [u32],
) -> io::Result<Job> {
    let crop = whole(source);
    let started = start(source, PixelLayout::Rgba8, crop, target, work);
    begun(rt, started, source, target)
}

// The full crop.
fn whole(source: Dimensions) -> Rect {
    Rect::new(0, 0, source.width, source.height)
}

// The job that was started. A refusal is written, and the record of it turns every call away.
fn begun(
    rt: &impl Print,
    started: Result<Job, Refusal>,
    source: Dimensions,
    target: Dimensions,
) -> io::Result<Job> {
    match started {
        Ok(job) => Ok(job),
        Err(why) => {
            refused_line(rt, why)?;
            Ok(Job {
                plan: Plan {
                    source,
                    layout: PixelLayout::Rgba8,
                    crop: whole(source),
                    target,
                    kind: Kind::Picture,
                    lanes: PIXEL_LANES as u32,
                },
                accepted: 0,
                taken: 0,
                flag: true,
            })
        }
    }
}

fn scaled(rt: &impl Print, w: u32, h: u32, width: u32, height: u32) -> io::Result<()> {
    match size(w, h).scaled(width, height) {
        Ok(size) => println!(rt; "{} by {}", size.width, size.height),
        Err(why) => refused_line(rt, why),
    }
}

// ---- writing

fn word_line(rt: &impl Print, n: u32) -> io::Result<()> {
    println!(rt; "{n:08x}")
}

fn refused_line(rt: &impl Print, why: Refusal) -> io::Result<()> {
    println!(rt; "refused {}", why.number())
}

// What a job has made, and its counts.
fn job_lines(rt: &impl Print, job: Job, bytes: &[u8]) -> io::Result<()> {
    picture_line(
        rt,
        row_bytes(job.plan, job.plan.target.width),
        job.plan.target.height,
        bytes,
    )?;
    count_line(rt, job)
}

// The first so many rows.
fn picture_line(rt: &impl Print, row: usize, height: u32, bytes: &[u8]) -> io::Result<()> {
    let end = place(row, height, bytes.len());
    hex_line(rt, &bytes[..end])
}

// Kept, as `number` and `place`, in each program of trials, so that it is read alone: a crate for these few lines would owe contracts.
// Kept: bytes and words, a format each; a function of both would be told how to get a byte.
fn hex_line(rt: &impl Print, bytes: &[u8]) -> io::Result<()> {
    for byte in bytes {
        print!(rt; "{byte:02x}")?;
    }
    println!(rt)
}

// Work values, the low byte of each.
fn words_line(rt: &impl Print, words: &[u32]) -> io::Result<()> {
    for word in words {
        print!(rt; "{:02x}", word % 256)?;
    }
    println!(rt)
}

// Rows accepted, rows taken and the flag.
fn count_line(rt: &impl Print, job: Job) -> io::Result<()> {
    println!(rt;
        "{} accepted, {} taken, flag {}",
        job.accepted, job.taken, job.flag
    )
}
