// The badge that --badge asks for. It and the finished preview are held whole, and not one byte goes out before it is laid.
ghost use Rattle.std.specs.Prelude.{◌≤◌};

use crate::also::{part_of, path_of, say_failed};
use crate::header::{Source, read_header};
use crate::{
    Form, Stopped, TEXT, close, ended, next_of, open, picture, preview_size, run_rows, say,
    say_refusal, stop, write_out,
};
use job::Job;
use job_rules::{Plan, row_bytes};
use job_start::start;
use pixels::{Dimensions, PIXEL_LANES, Rect, Refusal};
use pixels_badge::lay_badge;
use pixels_layout::PixelLayout;
use std::env::FillError;
use std::fs::File;
use std::io;
use std::io::Read;
use std::rt::Env;

// The most pixels of a preview that is held, and its bytes.
const MOST: usize = 524288;

const HELD: usize = PIXEL_LANES * MOST;

// ---- the badge

// Opens a file to read it. A folder is opened and cannot be read, which a read of no byte tells.
fn open_file(rt: &HostRuntime, file: &[u8]) -> io::Result<File> {
    let mut none = [0u8; 0];
    let mut opened = File::open(rt, path_of(file)?)?;
    opened.read(&mut none)?;
    Ok(opened)
}

// An argument that is not to be had.
fn say_no_name(rt: &HostRuntime, why: FillError) {
    match why {
        FillError::TooLong => say(rt, b"preview: the badge's file: File name too long\n"),
        FillError::NotPresent => say(rt, b"preview: the badge's file: Invalid argument\n"),
    }
}

// Opens the file that argument `word` names.
fn open_badge(rt: &HostRuntime, word: usize) -> Result<File, Stopped> {
    let mut text = [0u8; TEXT];
    match rt.arg(word, &mut text) {
        Err(why) => {
            say_no_name(rt, why);
            Err(Stopped)
        }
        Ok(n) => open_named(rt, &text[..n]),
    }
}

fn open_named(rt: &HostRuntime, file: &[u8]) -> Result<File, Stopped> {
    match open_file(rt, file) {
        Ok(opened) => Ok(opened),
        Err(error) => {
            say_failed(rt, file, &error);
            Err(Stopped)
        }
    }
}

fn say_size(rt: &HostRuntime, size: Dimensions) {
    let width = size.width;
    let height = size.height;
    let _ = eprint!(rt; "{width}x{height}");
}

fn say_unequal(rt: &HostRuntime, badge: Dimensions, preview: Dimensions) {
    say(rt, b"preview: the badge is ");
    say_size(rt, badge);
    say(rt, b" and the preview ");
    say_size(rt, preview);
    say(rt, b": they have to be of one size\n");
}

// Reads the badge's pixels, with which its file ends.
fn read_pixels(rt: &HostRuntime, file: &mut File, badge: &mut [u8]) -> Result<(), Stopped> {
    if file.read_exact(badge).is_err() {
        say(
            rt,
            b"preview: the badge is too short: pixel bytes are missing\n",
        );
        return Err(Stopped);
    }
    if !ended(file) {
        say(
            rt,
            b"preview: the badge is too long: it goes on after its last pixel\n",
        );
        return Err(Stopped);
    }
    Ok(())
}

// Reads the badge, of the preview's size, from the file that argument `word` names.
fn read_badge(
    rt: &HostRuntime,
    word: usize,
    preview: Dimensions,
    badge: &mut [u8],
) -> Result<(), Stopped> {
    let mut file = open_badge(rt, word)?;
    let size = read_header(rt, Source::Badge, &mut file)?;
    if size != preview {
        say_unequal(rt, size, preview);
        return Err(Stopped);
    }
    read_pixels(rt, &mut file, badge)
}

// ---- the preview

// Some of the bytes.
#[derive(Clone, Copy)]
struct Bounds {
    at: usize,
    end: usize,
}

// Where row k stands in n bytes, each row of `row`; none of them where they do not have it, which every call refuses.
fn place(row: usize, k: u32, n: usize) -> Bounds
    ensures { (result.at ≤ result.end) × (result.end ≤ n) }
{
    if row == 0 {
        return Bounds { at: 0, end: 0 };
    }
    if n / row <= k as usize {
        return Bounds { at: 0, end: 0 };
    }
    let at = row * k as usize;
    Bounds { at, end: at + row }
}

// Takes the next row into its place.
pub(crate) fn hold_row(
    rt: &HostRuntime,
    job: Job,
    pixels: &mut [u8],
    work: &mut [u32],
) -> Result<Job, Stopped> {
    let row = row_bytes(job.plan, job.plan.target.width);
    let bounds = place(row, job.taken, pixels.len());
    let at = bounds.at;
    let end = bounds.end;
    next_of(rt, job.take(&mut pixels[at..end], work))
}

// Runs a fresh job on the rows of standard input.
fn hold_job(
    rt: &HostRuntime,
    job: Job,
    row: &mut [u8],
    pixels: &mut [u8],
    work: &mut [u32],
) -> Result<(), Stopped> {
    let n = part_of(row_bytes(job.plan, job.plan.source.width), row);
    run_rows(rt, job, true, &mut row[..n], pixels, work)
}

// Makes the preview, with one row of the widest picture and the work values of the widest preview.
fn make(rt: &HostRuntime, plan: Plan, pixels: &mut [u8]) -> Result<(), Stopped> {
    let mut row = [0u8; 65536];
    let mut work = [0u32; 131072];
    let started = start(
        plan.source,
        PixelLayout::Rgba8,
        plan.crop,
        plan.target,
        &mut work,
    );
    let job = started.map_err(|why| stop(rt, why))?;
    hold_job(rt, job, &mut row, pixels, &mut work)
}

// ---- one over the other

fn say_not_laid(rt: &HostRuntime, why: Refusal) {
    match why {
        Refusal::BackgroundNotOpaque => say(
            rt,
            b"preview: the preview is not opaque: a badge is laid on an opaque preview only\n",
        ),
        _ => say_refusal(rt, why),
    }
}

// Lays the badge, and writes what it is laid on.
fn finish(
    rt: &HostRuntime,
    form: Form,
    size: Dimensions,
    pixels: &mut [u8],
    badge: &[u8],
) -> Result<(), Stopped> {
    let laid = lay_badge(
        size,
        PixelLayout::Rgba8,
        pixels,
        size,
        PixelLayout::Rgba8,
        badge,
    );
    if let Err(why) = laid {
        say_not_laid(rt, why);
        return Err(Stopped);
    }
    open(rt, form, size)?;
    write_out(rt, pixels)
}

// The bytes of a picture that is held; none where it is too large.
fn picture_bytes(size: Dimensions) -> Option<usize> {
    let count = size.pixel_count();
    if (MOST as u64) < count {
        return None;
    }
    Some(PIXEL_LANES * count as usize)
}

// Reads the badge, makes the preview, and goes on where the input has ended with it.
fn lay(
    rt: &HostRuntime,
    form: Form,
    plan: Plan,
    word: usize,
    pixels: &mut [u8],
    badge: &mut [u8],
) -> Result<(), Stopped> {
    read_badge(rt, word, plan.target, badge)?;
    make(rt, plan, pixels)?;
    close(rt)?;
    finish(rt, form, plan.target, pixels, badge)
}

// The same, in the `bytes` of the buffers that the pictures take.
fn lay_in(
    rt: &HostRuntime,
    form: Form,
    plan: Plan,
    word: usize,
    bytes: usize,
    pixels: &mut [u8],
    badge: &mut [u8],
) -> Result<(), Stopped> {
    let n = part_of(bytes, pixels);
    let m = part_of(n, badge);
    lay(rt, form, plan, word, &mut pixels[..n], &mut badge[..m])
}

fn hold(
    rt: &HostRuntime,
    form: Form,
    plan: Plan,
    word: usize,
    bytes: usize,
) -> Result<(), Stopped> {
    let mut pixels = [0u8; HELD];
    let mut badge = [0u8; HELD];
    lay_in(rt, form, plan, word, bytes, &mut pixels, &mut badge)
}

fn say_too_large(rt: &HostRuntime) {
    let _ = eprintln!(rt; "preview: with --badge a preview has at most {MOST} pixels");
}

// A preview under the badge in the file that argument `word` names.
pub(crate) fn badged(
    rt: &HostRuntime,
    form: Form,
    source: Dimensions,
    crop: Rect,
    sides: Dimensions,
    word: usize,
) -> Result<(), Stopped> {
    let target = preview_size(source, crop, sides).map_err(|why| stop(rt, why))?;
    let Some(bytes) = picture_bytes(target) else {
        say_too_large(rt);
        return Err(Stopped);
    };
    hold(rt, form, picture(source, crop, target), word, bytes)
}
