// preview [--raw WIDTH HEIGHT] TARGET_WIDTH TARGET_HEIGHT [X Y CROP_WIDTH CROP_HEIGHT] [--badge FILE | --also WIDTHxHEIGHT=FILE...]
// Reads a PAM picture from standard input and writes a PAM preview to standard output, its rows as they become ready, one row of each held at a time; with
// --raw, raw RGBA rows of both. A target side of 0 is derived from the crop's size. Each --also writes another preview of the same crop to its file, in the same
// pass. With --badge the preview is held whole, and goes out under the badge in the file. What goes wrong is said in one line on standard error.
#![tactic(auto)]

mod also;
mod badge;
mod header;

ghost use Rattle.std.specs.Prelude.{◌≤◌, length};
ghost use Rattle.pixels.specs.Sizes.{row_bytes};
ghost use Rattle.job_rules.specs.Rules.{lanes_of};

use also::{Words, also, ask, split_at_byte, words_of, write_file};
use badge::{badged, hold_row};
use header::{Source, read_header, write_header};
use job::{Answer, Job};
use job_rules::{Kind, Plan, check_start, row_bytes};
use job_start::start;
use pam_parts::head_of;
use pixels::{Dimensions, PIXEL_LANES, Rect, Refusal};
use pixels_layout::PixelLayout;
use preview_decimal::number;
use std::env::FillError;
use std::fs::File;
use std::io;
use std::io::{Cursor, Read, Write};
use std::rt::Env;

// The most bytes of an argument.
const TEXT: usize = 4096;

// What comes in and goes out.
#[derive(Clone, Copy)]
enum Form {
    Pam,
    Raw,
}

// Something stopped the program, which was said.
#[derive(Clone, Copy)]
struct Stopped;

// On standard error. Where that takes nothing, there is nobody to tell.
fn say(rt: &HostRuntime, line: &[u8]) {
    let _ = rt.stderr().write_all(line);
}

// Says what failed and the error's text. The number that stands behind a text of the system is left out.
fn say_error(rt: &HostRuntime, what: &[u8], error: &io::Error) {
    let mut text = Cursor::new([0u8; 256]);
    let _ = write!(text, "{error}");
    say(rt, what);
    say(rt, b": ");
    say(rt, words_of_error(text.get_ref()));
    say(rt, b"\n");
}

// What stands before the number that std puts behind the words of an error, or else before the zeros.
fn words_of_error(text: &[u8]) -> &[u8] {
    match split_at_byte(text, b'(') {
        Some((words, _)) => head_of(words, words.len().saturating_sub(1)),
        None => split_at_byte(text, 0).map_or(&[], |(words, _)| words),
    }
}

// ---- the arguments

// How many there are, the program's own name among them.
fn argument_count(rt: &HostRuntime) -> usize {
    let mut text = [0u8; 1];
    for i in 0..usize::MAX {
        if let Err(FillError::NotPresent) = rt.arg(i, &mut text) {
            return i;
        }
    }
    usize::MAX
}

// Puts argument i at the start of the text and answers its length, 0 where it is missing or too long.
fn argument_text(rt: &HostRuntime, i: usize, text: &mut [u8]) -> usize
    ensures { result ≤ length text.new }
{
    rt.arg(i, text).unwrap_or(0)
}

// Argument i as a number; none where it is none.
fn argument(rt: &HostRuntime, i: usize) -> Option<u32> {
    let mut text = [0u8; TEXT];
    let n = argument_text(rt, i, &mut text);
    number(&text[..n])
}

fn say_no_number(rt: &HostRuntime, i: usize) {
    let _ = eprintln!(rt; "preview: argument {i} is not a decimal number below 4294967296");
}

// Whether argument i is this word.
fn is_word(rt: &HostRuntime, i: usize, word: &[u8]) -> bool {
    let mut text = [0u8; TEXT];
    let n = argument_text(rt, i, &mut text);
    &text[..n] == word
}

// The arguments from `first` on; the first that is no number is said. `count` has all words in it, the program's own name too.
fn arguments(rt: &HostRuntime, first: usize, count: usize) -> Result<[u32; 8], Stopped>
    requires { first ≤ 2 }
{
    let mut numbers = [0u32; 8];
    for i in 0..8 {
        if first + i == count {
            break;
        }
        let Some(n) = argument(rt, first + i) else {
            say_no_number(rt, i + 1);
            return Err(Stopped);
        };
        numbers[i] = n;
    }
    Ok(numbers)
}

// ---- the input: all that knows its form

// Whether there is nothing more to read.
fn ended(input: &mut impl Read) -> bool {
    let mut more = [0u8; 1];
    input.read_exact(&mut more).is_err()
}

// ---- the output

// What standard output does not take is said.
fn write_out(rt: &HostRuntime, bytes: &[u8]) -> Result<(), Stopped> {
    match rt.stdout().write_all(bytes) {
        Ok(()) => Ok(()),
        Err(error) => {
            say_error(rt, b"preview: standard output", &error);
            Err(Stopped)
        }
    }
}

// A file that a preview goes to, and the argument that names it.
#[derive(Drop)]
struct Named {
    word: usize,
    file: File,
}

// To a file, or where there is none to standard output.
fn write_to(rt: &HostRuntime, to: &Option<Named>, bytes: &[u8]) -> Result<(), Stopped> {
    match to {
        None => write_out(rt, bytes),
        Some(named) => write_file(rt, named, bytes),
    }
}

// ---- the rows

// The next record that a call hands back; a refusal is said.
fn next_of<T: Copy, R: Copy>(rt: &HostRuntime, answer: Answer<T, R>) -> Result<R, Stopped> {
    match answer.said {
        Err(why) => Err(stop(rt, why)),
        Ok(_) => Ok(answer.next),
    }
}

// Takes the next row and writes it.
fn write_row(rt: &HostRuntime, job: Job, out: &mut [u8], work: &mut [u32]) -> Result<Job, Stopped> {
    let next = next_of(rt, job.take(out, work))?;
    write_out(rt, out)?;
    Ok(next)
}

// Takes the next row. Where the preview is held, `out` has room for all of it; else for the row, which is written.
// Kept: a flag; a closure would need a clause for its calls in each of the three functions that hand it down.
fn take_row(
    rt: &HostRuntime,
    job: Job,
    held: bool,
    out: &mut [u8],
    work: &mut [u32],
) -> Result<Job, Stopped> {
    if held {
        return hold_row(rt, job, out, work);
    }
    write_row(rt, job, out, work)
}

// Takes every row that is ready.
fn take_ready(
    rt: &HostRuntime,
    fed: Job,
    held: bool,
    out: &mut [u8],
    work: &mut [u32],
) -> Result<Job, Stopped> {
    let mut job = fed;
    for _ in 0..fed.ready() {
        job = take_row(rt, job, held, out, work)?;
    }
    Ok(job)
}

fn say_too_short(rt: &HostRuntime, rows: u32) {
    let _ = eprintln!(rt; "preview: the input is too short: it has only {rows} whole rows");
}

// Reads a row and offers it.
fn feed_row(rt: &HostRuntime, job: Job, row: &mut [u8], work: &mut [u32]) -> Result<Job, Stopped> {
    if rt.stdin().read_exact(row).is_err() {
        say_too_short(rt, job.accepted);
        return Err(Stopped);
    }
    next_of(rt, job.offer(row, work))
}

// A row in, and the rows that it makes ready out.
fn pass_row(
    rt: &HostRuntime,
    job: Job,
    held: bool,
    row: &mut [u8],
    out: &mut [u8],
    work: &mut [u32],
) -> Result<Job, Stopped> {
    let fed = feed_row(rt, job, row, work)?;
    take_ready(rt, fed, held, out, work)
}

// All of the source's rows, one after another.
fn run_rows(
    rt: &HostRuntime,
    fresh: Job,
    held: bool,
    row: &mut [u8],
    out: &mut [u8],
    work: &mut [u32],
) -> Result<(), Stopped> {
    let mut job = fresh;
    for _ in 0..fresh.plan.source.height {
        job = pass_row(rt, job, held, row, out, work)?;
    }
    Ok(())
}

// ---- the picture

// In words for a user of the command.
fn say_refusal(rt: &HostRuntime, why: Refusal) {
    match why {
        Refusal::InvalidDimensions => say(
            rt,
            b"preview: a side of the picture, of the crop or of the preview is 0 or above 16384\n",
        ),
        Refusal::CropOutOfBounds => say(rt, b"preview: the crop does not lie within the picture\n"),
        _ => say(rt, b"preview: a row was refused\n"),
    }
}

// A refusal, which is said, stops the program.
fn stop(rt: &HostRuntime, why: Refusal) -> Stopped {
    say_refusal(rt, why);
    Stopped
}

// Runs a fresh job on the rows of standard input.
fn run_job(
    rt: &HostRuntime,
    job: Job,
    row: &mut [u8],
    out: &mut [u8],
    work: &mut [u32],
) -> Result<(), Stopped>
    requires { (row_bytes (lanes_of job.plan) job.plan.source.width ≤ length row.old) × (row_bytes (lanes_of job.plan) job.plan.target.width ≤ length out.old) }
{
    let w = row_bytes(job.plan, job.plan.source.width);
    let m = row_bytes(job.plan, job.plan.target.width);
    run_rows(rt, job, false, &mut row[..w], &mut out[..m], work)
}

// After the last row: the input must have ended; where it goes on, that is said.
fn close(rt: &HostRuntime) -> Result<(), Stopped> {
    if ended(&mut rt.stdin()) {
        return Ok(());
    }
    say(
        rt,
        b"preview: the input is too long: it goes on after the last row\n",
    );
    Err(Stopped)
}

// Writes the preview's header, where its form has one.
fn open_to(
    rt: &HostRuntime,
    form: Form,
    to: &Option<Named>,
    target: Dimensions,
) -> Result<(), Stopped> {
    match form {
        Form::Pam => write_header(rt, to, target),
        Form::Raw => Ok(()),
    }
}

fn open(rt: &HostRuntime, form: Form, target: Dimensions) -> Result<(), Stopped> {
    open_to(rt, form, &None, target)
}

// One row of the widest picture in, one out, and the work values of the widest preview.
fn scale(
    rt: &HostRuntime,
    form: Form,
    source: Dimensions,
    crop: Rect,
    target: Dimensions,
) -> Result<(), Stopped> {
    let mut row = [0u8; 65536];
    let mut out = [0u8; 65536];
    let mut work = [0u32; 131072];
    match start(source, PixelLayout::Rgba8, crop, target, &mut work) {
        Err(why) => Err(stop(rt, why)),
        Ok(job) => {
            open(rt, form, target)?;
            run_job(rt, job, &mut row, &mut out, &mut work)?;
            close(rt)
        }
    }
}

// A side, or where it is 0 the other.
fn either(side: u32, other: u32) -> u32 {
    if side == 0 {
        return other;
    }
    side
}

// A preview of this size.
fn picture(source: Dimensions, crop: Rect, target: Dimensions) -> Plan {
    Plan {
        source,
        layout: PixelLayout::Rgba8,
        crop,
        target,
        kind: Kind::Picture,
        lanes: PIXEL_LANES as u32,
    }
}

// The size of the preview whose sides the arguments ask for, tested before one that is 0 is derived: from a crop beyond the picture none is. A side that is
// still to be derived passes as the other one does.
fn preview_size(source: Dimensions, crop: Rect, sides: Dimensions) -> Result<Dimensions, Refusal> {
    let either = Dimensions {
        width: either(sides.width, sides.height),
        height: either(sides.height, sides.width),
    };
    check_start(picture(source, crop, either), 131072)?;
    Dimensions {
        width: crop.width,
        height: crop.height,
    }
    .scaled(sides.width, sides.height)
}

fn preview(
    rt: &HostRuntime,
    form: Form,
    source: Dimensions,
    crop: Rect,
    sides: Dimensions,
) -> Result<(), Stopped> {
    let target = preview_size(source, crop, sides).map_err(|why| stop(rt, why))?;
    scale(rt, form, source, crop, target)
}

// The crop that the arguments name, or else the whole picture.
fn crop_of(source: Dimensions, crop: Option<Rect>) -> Rect {
    crop.unwrap_or(Rect::new(0, 0, source.width, source.height))
}

// ---- the two forms. Each calls `preview`, `badged` or `also` itself: a function that did it for both would take the stack of all for each.

fn say_usage(rt: &HostRuntime) {
    say(
        rt,
        b"usage: preview [--raw WIDTH HEIGHT] TARGET_WIDTH TARGET_HEIGHT [X Y CROP_WIDTH CROP_HEIGHT] [--badge FILE | --also WIDTHxHEIGHT=FILE...]\n",
    );
}

// The size stands in the arguments.
fn preview_raw(rt: &HostRuntime, words: Words) -> Result<(), Stopped> {
    let count = words.before;
    if count != 6 && count != 10 {
        say_usage(rt);
        return Err(Stopped);
    }
    let n = arguments(rt, 2, count)?;
    let source = Dimensions {
        width: n[0],
        height: n[1],
    };
    let named = Rect::new(n[4], n[5], n[6], n[7]);
    let crop = crop_of(source, (count == 10).then_some(named));
    let sides = Dimensions {
        width: n[2],
        height: n[3],
    };
    let asked = ask(rt, words, sides)?;
    if let Some(word) = asked.badge {
        return badged(rt, Form::Raw, source, crop, sides, word);
    }
    if asked.count == 1 {
        return preview(rt, Form::Raw, source, crop, sides);
    }
    also(rt, Form::Raw, source, crop, asked)
}

// The size stands in the header.
fn preview_pam(rt: &HostRuntime, words: Words) -> Result<(), Stopped> {
    let count = words.before;
    if count != 3 && count != 7 {
        say_usage(rt);
        return Err(Stopped);
    }
    let n = arguments(rt, 1, count)?;
    let sides = Dimensions {
        width: n[0],
        height: n[1],
    };
    let asked = ask(rt, words, sides)?;
    let source = read_header(rt, Source::Input, &mut rt.stdin())?;
    let named = Rect::new(n[2], n[3], n[4], n[5]);
    let crop = crop_of(source, (count == 7).then_some(named));
    if let Some(word) = asked.badge {
        return badged(rt, Form::Pam, source, crop, sides, word);
    }
    if asked.count == 1 {
        return preview(rt, Form::Pam, source, crop, sides);
    }
    also(rt, Form::Pam, source, crop, asked)
}

// What stopped it was said.
fn main(rt: HostRuntime) {
    let words = words_of(&rt);
    let _ = if is_word(&rt, 1, b"--raw") {
        preview_raw(&rt, words)
    } else {
        preview_pam(&rt, words)
    };
}
