// Replays the fixed list (oracle/README.md has its form): answers of the original Rust, held against the port's. Writes how many entries
// there are and how many differ.
#![tactic(auto)]

ghost use Rattle.std.specs.Prelude.{◌≤◌, length, IfOk};

use job::Job;
use job_start::start;
use pixels::{Dimensions, PIXEL_LANES, Rect, Refusal};
use pixels_alpha::apply_alpha_plane;
use pixels_crop::crop;
use pixels_layout::PixelLayout;
use std::io;
use std::io::Read;

mod picture;
mod text;

use picture::{check, fill, fill_plane};
use text::{entry, number};

// An answer as an entry holds it.
#[derive(Clone, Copy, PartialEq, Eq)]
struct Answer {
    number: u32,
    flag: u32,
    check: u32,
}

// An entry: what is asked, and the original's answer.
#[derive(Clone, Copy)]
struct Entry {
    kind: u32,
    layout: PixelLayout,
    source: Dimensions,
    crop: Rect,
    target: Dimensions,
    pattern: u32,
    seed: u32,
    answer: Answer,
}

// What no entry of the list holds. Kept: an entry that says 100 is answered as it was.
fn wrong() -> Answer {
    Answer {
        number: 100,
        flag: 0,
        check: 0,
    }
}

fn refused(why: Refusal) -> Answer {
    Answer {
        number: why.number(),
        flag: 0,
        check: 0,
    }
}

fn layout_of(word: u32) -> PixelLayout {
    match word {
        1 => PixelLayout::Argb8,
        2 => PixelLayout::Bgra8,
        _ => PixelLayout::Rgba8,
    }
}

// The entry that fifteen numbers are.
fn entry_of(n: &[u32; 15]) -> Entry {
    Entry {
        kind: n[0],
        layout: layout_of(n[1]),
        source: Dimensions {
            width: n[2],
            height: n[3],
        },
        crop: Rect {
            x: n[4],
            y: n[5],
            width: n[6],
            height: n[7],
        },
        target: Dimensions {
            width: n[8],
            height: n[9],
        },
        pattern: n[10],
        seed: n[11],
        answer: Answer {
            number: n[12],
            flag: n[13],
            check: n[14],
        },
    }
}

// ---- kind 0: crop then resize, by rows

// A job on its way: the checksum of the rows taken from it, and the generator's state.
#[derive(Clone, Copy)]
struct Run {
    job: Job,
    sum: u32,
    state: u32,
}

// Takes every row that is ready.
fn take_ready(mut run: Run, out: &mut [u8], work: &mut [u32]) -> Run {
    for _ in 0..pixels::MAX_DIMENSION {
        let taken = run.job.take(out, work);
        run.job = taken.next;
        if taken.said.is_err() {
            break;
        }
        run.sum = check(run.sum, out);
    }
    run
}

// Offers the row that starts with pixel `first`, and takes what is ready after it; none where the row is refused.
fn feed(
    mut run: Run,
    place: usize,
    pattern: u32,
    first: u32,
    row: &mut [u8],
    out: &mut [u8],
    work: &mut [u32],
) -> Option<Run> {
    run.state = fill(row, place, pattern, first, run.state);
    let offered = run.job.offer(row, work);
    run.job = offered.next;
    if offered.said.is_err() {
        return None;
    }
    Some(take_ready(run, out, work))
}

// Feeds the source's rows one by one, made of the entry's pattern; none where one is refused.
fn run_rows(e: Entry, fresh: Job, row: &mut [u8], out: &mut [u8], work: &mut [u32]) -> Option<Run> {
    let mut run = Run {
        job: fresh,
        sum: picture::EMPTY,
        state: e.seed,
    };
    let place = e.layout.alpha_byte_offset();
    for k in 0..e.source.height {
        let first = arithmetic::wrapping_mul(k, e.source.width);
        run = feed(run, place, e.pattern, first, row, out, work)?;
    }
    Some(run)
}

fn ended(run: Run, height: u32) -> Answer {
    if run.job.taken != height {
        return wrong();
    }
    Answer {
        number: 0,
        flag: u32::from(run.job.flag),
        check: run.sum,
    }
}

// Runs a fresh job in the first bytes of the buffers, where they hold a row.
fn run_job(e: Entry, fresh: Job, row: &mut [u8], out: &mut [u8], work: &mut [u32]) -> Answer {
    let w = PIXEL_LANES * e.source.width as usize;
    let m = PIXEL_LANES * e.target.width as usize;
    if row.len() < w {
        return wrong();
    }
    if out.len() < m {
        return wrong();
    }
    match run_rows(e, fresh, &mut row[..w], &mut out[..m], work) {
        Some(run) => ended(run, e.target.height),
        None => wrong(),
    }
}

fn by_rows(e: Entry, row: &mut [u8], out: &mut [u8], work: &mut [u32]) -> Answer {
    match start(e.source, e.layout, e.crop, e.target, work) {
        Err(why) => refused(why),
        Ok(job) => run_job(e, job, row, out, work),
    }
}

// ---- kind 1: scaled

fn by_size(e: Entry) -> Answer {
    match e.source.scaled(e.target.width, e.target.height) {
        Err(why) => refused(why),
        Ok(d) => Answer {
            number: 0,
            flag: d.width,
            check: d.height,
        },
    }
}

// ---- kinds 2 and 3: crop, and the alpha plane

// The bytes of a picture, 0 where it does not fit the buffers here.
fn bytes_of(size: Dimensions) -> usize {
    let n = size.pixel_count();
    if 16384 < n {
        return 0;
    }
    PIXEL_LANES * n as usize
}

fn flagged(answer: Result<bool, Refusal>, bytes: &[u8]) -> Answer {
    match answer {
        Err(why) => refused(why),
        Ok(flag) => Answer {
            number: 0,
            flag: u32::from(flag),
            check: check(picture::EMPTY, bytes),
        },
    }
}

// Both buffers have the lengths that the entry's sizes say.
fn crop_of(e: Entry, source: &mut [u8], out: &mut [u8]) -> Answer {
    fill(source, e.layout.alpha_byte_offset(), e.pattern, 0, e.seed);
    let answer = crop(e.source, e.layout, source, e.crop, out);
    flagged(answer, out)
}

fn by_crop(e: Entry, source: &mut [u8], out: &mut [u8]) -> Answer {
    let n = bytes_of(e.source);
    let m = bytes_of(Dimensions {
        width: e.crop.width,
        height: e.crop.height,
    });
    if source.len() < n {
        return wrong();
    }
    if out.len() < m {
        return wrong();
    }
    crop_of(e, &mut source[..n], &mut out[..m])
}

fn plane_of(e: Entry, source: &mut [u8], plane: &mut [u8]) -> Answer {
    fill(source, e.layout.alpha_byte_offset(), e.pattern, 0, e.seed);
    fill_plane(plane, e.pattern, e.seed);
    let answer = apply_alpha_plane(e.source, e.layout, source, plane);
    flagged(answer, source)
}

fn by_plane(e: Entry, source: &mut [u8], plane: &mut [u8]) -> Answer {
    let n = bytes_of(e.source);
    let m = n / PIXEL_LANES;
    if source.len() < n {
        return wrong();
    }
    if plane.len() < m {
        return wrong();
    }
    plane_of(e, &mut source[..n], &mut plane[..m])
}

// ---- the list

fn answer_of(e: Entry, source: &mut [u8], out: &mut [u8], work: &mut [u32]) -> Answer {
    match e.kind {
        0 => by_rows(e, source, out, work),
        1 => by_size(e),
        2 => by_crop(e, source, out),
        _ => by_plane(e, source, out),
    }
}

// How many entries the list says it has, and how many of them differ.
#[derive(Clone, Copy)]
struct Count {
    entries: u32,
    differ: u32,
}

fn replay(list: &[u8]) -> Count {
    let mut source = [0u8; 65536];
    let mut out = [0u8; 65536];
    let mut work = [0u32; 131072];
    let mut n = [0u32; 15];
    let first = number(list, 0);
    let mut at = first.next;
    let mut differ = 0u32;
    for _ in 0..first.value {
        at = entry(list, at, &mut n);
        let e = entry_of(&n);
        if answer_of(e, &mut source, &mut out, &mut work) != e.answer {
            differ = differ.wrapping_add(1);
        }
    }
    Count {
        entries: first.value,
        differ,
    }
}

// Reads until the bytes are full or the input ends; how many there are.
fn read_full(input: &mut impl Read, bytes: &mut [u8]) -> io::Result<usize>
    ensures { IfOk result (λ n. n ≤ length bytes.new) }
{
    let mut done = 0usize;
    for _ in 0..u64::MAX {
        if done == bytes.len() {
            break;
        }
        let n = input.read(&mut bytes[done..])?;
        if n == 0 {
            break;
        }
        done += n;
    }
    Ok(done)
}

fn main(rt: HostRuntime) -> io::Result<()> {
    let mut list = [0u8; 65536];
    let n = read_full(&mut rt.stdin(), &mut list)?;
    let count = replay(&list[..n]);
    println!(rt; "{} entries, {} differ", count.entries, count.differ)
}
