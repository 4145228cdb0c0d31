// Feeds five small jobs, each twice. First by single rows: before each and after it, how many rows the next band has and what a band of a row less, of these rows, of a
// row more, and of these rows with a work value too few is answered. Then by bands, each with the work values after it, and the row that follows it. The file `stdout`
// holds what tests/band_model.py says.
#![tactic(auto)]

ghost use Rattle.std.specs.Prelude.{◌≤◌};

use job::{Answer, Job};
use job_band::{band_rows, offer_band};
use job_rules::{Kind, Plan, row_bytes};
use job_start::{start, start_plane};
use pixels::{Dimensions, Rect, Refusal};
use pixels_layout::PixelLayout;
use std::io;

fn main(rt: HostRuntime) -> io::Result<()> {
    all(
        &rt,
        b"\x3c\xbb\x3e\xda\xb7\x5c\x7f\x38\x0d\xde\x10\x29\
        \x7f\xa4\x25\xd8\x79\x63\xe0\x14\xfa\x5b\xc0\x9b\
        \x99\x79\xfa\x72\x80\x38\x47\xcc\x2f\x68\xfa\x3d\
        \xe4\x48\x78\x4c\xe3\x88\x64\x99\x1a\x28\x14\x24\
        \xc8\x49\x19\x75\x27\x5b\x00\xab\x3e\x4e\x91\xb6\
        \x65\xa4\x25\x3b\x17\x90\xea\xf2\x17\x7c\x27\x73\
        \x5e\x02\xc9\xff\x90\xd3\x6a\x01\xee\x34\x8b\x80\
        \x0b\x8c\xfe\x62\x91\x7d\x3a\xc0\xf2\x11\x48\x3d\
        \xe5\xa0\xc7\x1f\x56\xb2\x09\xfe\x77\xd1\x2c\x4a",
    )
}

// Each has rows of 8 bytes to hand out and takes 16 work values.
fn all(rt: &impl Print, pixels: &[u8]) -> io::Result<()> {
    println!(rt; "a picture of 3 by 9, 2 by 7 of it to 2 by 3")?;
    twice(rt, cropped(), pixels)?;
    println!(rt; "a plane of two lanes, 3 by 7 to 4 by 2")?;
    twice(rt, two_lanes(), pixels)?;
    println!(rt; "a picture of 2 by 5 to 2 by 1")?;
    twice(rt, whole(PixelLayout::Rgba8, 5, 1), pixels)?;
    println!(rt; "a picture of 2 by 3 to 2 by 3")?;
    twice(rt, whole(PixelLayout::Rgba8, 3, 3), pixels)?;
    println!(rt; "a picture of 2 by 3 to 2 by 5")?;
    twice(rt, whole(PixelLayout::Argb8, 3, 5), pixels)
}

// ---- the jobs

fn size(width: u32, height: u32) -> Dimensions {
    Dimensions { width, height }
}

fn cropped() -> Plan {
    Plan {
        source: size(3, 9),
        layout: PixelLayout::Bgra8,
        crop: Rect::new(1, 1, 2, 7),
        target: size(2, 3),
        kind: Kind::Picture,
        lanes: 4,
    }
}

fn two_lanes() -> Plan {
    Plan {
        source: size(3, 7),
        layout: PixelLayout::Rgba8,
        crop: Rect::new(0, 0, 3, 7),
        target: size(4, 2),
        kind: Kind::Plane,
        lanes: 2,
    }
}

// A picture two wide, and as wide scaled.
fn whole(layout: PixelLayout, height: u32, target_height: u32) -> Plan {
    Plan {
        source: size(2, height),
        layout,
        crop: Rect::new(0, 0, 2, height),
        target: size(2, target_height),
        kind: Kind::Picture,
        lanes: 4,
    }
}

// ---- both ways, over work values of which the last is no job's

fn twice(rt: &impl Print, p: Plan, pixels: &[u8]) -> io::Result<()> {
    let mut work = [7u32; 17];
    let mut job = begun(p, &mut work);
    for _ in 0..p.source.height.max(p.target.height) {
        job = row_turn(rt, job, pixels, &mut work)?;
    }
    job = begun(p, &mut work);
    // a turn for each row to come, one for what is above the crop, and one more
    for _ in 0..p.target.height.wrapping_add(2) {
        job = band_turn(rt, job, pixels, &mut work)?;
    }
    Ok(())
}

// None is refused here; the record that stands for one would turn every call away.
fn begun(p: Plan, work: &mut [u32]) -> Job {
    let started = match p.kind {
        Kind::Picture => start(p.source, p.layout, p.crop, p.target, work),
        Kind::Plane => start_plane(p.source, p.lanes, p.crop, p.target, work),
    };
    started.unwrap_or(Job {
        plan: p,
        accepted: 0,
        taken: 1,
        flag: false,
    })
}

fn row_turn(rt: &impl Print, job: Job, pixels: &[u8], work: &mut [u32]) -> io::Result<Job> {
    told(rt, job, pixels)?;
    let next = offer_row(rt, job, pixels, work)?;
    told(rt, next, pixels)?;
    take_row(rt, next, work)
}

// A call that is turned away leaves all as it was.
fn band_turn(rt: &impl Print, job: Job, pixels: &[u8], work: &mut [u32]) -> io::Result<Job> {
    let fed = band_due(rt, job, pixels, work)?;
    let next = offer_row(rt, fed, pixels, work)?;
    take_row(rt, next, work)
}

// ---- calls

// What four bands would be answered, over work values of their own.
fn told(rt: &impl Print, job: Job, pixels: &[u8]) -> io::Result<()> {
    let rows = band_rows(job);
    print!(rt; "{} accepted, {} in the next band:", job.accepted, rows)?;
    tried(rt, job, rows.saturating_sub(1), pixels)?;
    tried(rt, job, rows, pixels)?;
    tried(rt, job, rows.wrapping_add(1), pixels)?;
    tried_short(rt, job, rows, pixels)?;
    println!(rt)
}

fn tried(rt: &impl Print, job: Job, rows: u32, pixels: &[u8]) -> io::Result<()> {
    let mut work = [7u32; 16];
    number(rt, band_of(job, rows, pixels, &mut work).said)
}

fn tried_short(rt: &impl Print, job: Job, rows: u32, pixels: &[u8]) -> io::Result<()> {
    let mut work = [7u32; 15];
    number(rt, band_of(job, rows, pixels, &mut work).said)
}

// The next so many rows as a band.
fn band_of(job: Job, rows: u32, pixels: &[u8], work: &mut [u32]) -> Answer<u32, Job> {
    let row = row_bytes(job.plan, job.plan.source.width);
    let at = place(row, job.accepted, pixels.len());
    let end = place(row, job.accepted.wrapping_add(rows), pixels.len());
    offer_band(job, &pixels[at..end.max(at)], work)
}

fn band_due(rt: &impl Print, job: Job, pixels: &[u8], work: &mut [u32]) -> io::Result<Job> {
    let answer = band_of(job, band_rows(job), pixels, work);
    print!(rt; "band")?;
    accepted_line(rt, answer.said)?;
    words_line(rt, work)?;
    Ok(answer.next)
}

fn offer_row(rt: &impl Print, job: Job, pixels: &[u8], work: &mut [u32]) -> io::Result<Job> {
    let row = row_bytes(job.plan, job.plan.source.width);
    let at = place(row, job.accepted, pixels.len());
    let end = place(row, job.accepted.wrapping_add(1), pixels.len());
    if end < at {
        return Ok(job);
    }
    let answer = job.offer(&pixels[at..end], work);
    print!(rt; "offer")?;
    accepted_line(rt, answer.said)?;
    Ok(answer.next)
}

fn take_row(rt: &impl Print, job: Job, work: &mut [u32]) -> io::Result<Job> {
    let mut row = [1u8; 8];
    let answer = job.take(&mut row, work);
    print!(rt; "take")?;
    number(rt, answer.said)?;
    print!(rt; ": ")?;
    hex_line(rt, &row)?;
    Ok(answer.next)
}

// Where row k starts, of `row` bytes each, or the end of the bytes where that is before it.
fn place(row: usize, k: u32, len: usize) -> usize
    ensures { result ≤ len }
{
    row.saturating_mul(k as usize).min(len)
}

// ---- writing

fn number<T: Copy>(rt: &impl Print, said: Result<T, Refusal>) -> io::Result<()> {
    print!(rt; " {}", said.map_or_else(|why| why.number(), |_| 0))
}

// The number and how many rows were accepted.
fn accepted_line(rt: &impl Print, said: Result<u32, Refusal>) -> io::Result<()> {
    number(rt, said)?;
    println!(rt; ": {}", said.unwrap_or(0))
}

// Kept, as `number` and `place`, in each program of trials, so that it is read alone: a crate for these few lines would owe contracts.
// Kept: bytes and words, a format each; a function of both would be told the width.
fn hex_line(rt: &impl Print, bytes: &[u8]) -> io::Result<()> {
    for byte in bytes {
        print!(rt; "{byte:02x}")?;
    }
    println!(rt)
}

fn words_line(rt: &impl Print, words: &[u32]) -> io::Result<()> {
    for word in words {
        print!(rt; "{word:08x}")?;
    }
    println!(rt)
}
