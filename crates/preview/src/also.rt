// The options' words; and the previews that --also asks for beside the main one: their files, and one pass over the input for the group of all.
ghost use Rattle.std.specs.Prelude.{◌≤◌, length};

use crate::{
    Form, Named, Stopped, TEXT, argument_count, argument_text, close, is_word, next_of, open_to,
    picture, preview_size, say, say_error, say_too_short, say_usage, stop, write_to,
};
use group::offer_group;
use group_rules::{GROUP_LIMIT, Group};
use group_start::start_group;
use group_take::{group_ready, take_group};
use job_rules::{Plan, row_bytes};
use pixels::{Dimensions, Rect};
use preview_decimal::number;
use std::fs::File;
use std::io::{Read, Write};
use std::{array, io, str};

// The work values of the most previews, each of the widest.
const WORK: usize = GROUP_LIMIT * 131072;

// ---- the words

// How many words there are, the program's own name among them, and how many before the first option.
#[derive(Clone, Copy)]
pub struct Words {
    pub count: usize,
    pub before: usize,
}

fn is_option(rt: &HostRuntime, i: usize) -> bool {
    if is_word(rt, i, b"--also") {
        return true;
    }
    is_word(rt, i, b"--badge")
}

pub(crate) fn words_of(rt: &HostRuntime) -> Words {
    let count = argument_count(rt);
    for i in 1..count {
        if is_option(rt, i) {
            return Words { count, before: i };
        }
    }
    Words {
        count,
        before: count,
    }
}

// What stands before the first such byte and what follows it; none where there is none.
pub(crate) fn split_at_byte(text: &[u8], byte: u8) -> Option<(&[u8], &[u8])> {
    let at = text.iter().position(|b| *b == byte)?;
    Some((&text[..at], &text[at + 1..]))
}

// A preview that is asked for: its sides as the words have them, and the argument that names its file; none is standard output.
#[derive(Clone, Copy)]
pub struct Target {
    pub sides: Dimensions,
    pub word: Option<usize>,
}

// Of WIDTHxHEIGHT.
fn target_of(text: &[u8], word: usize) -> Option<Target> {
    let (width, height) = split_at_byte(text, b'x')?;
    let sides = Dimensions {
        width: number(width)?,
        height: number(height)?,
    };
    Some(Target {
        sides,
        word: Some(word),
    })
}

// Of WIDTHxHEIGHT=FILE; the file has a name.
fn named_target(text: &[u8], word: usize) -> Option<Target> {
    let (sides, file) = split_at_byte(text, b'=')?;
    if file.is_empty() {
        return None;
    }
    target_of(sides, word)
}

fn say_no_target(rt: &HostRuntime, text: &[u8]) {
    say(rt, b"preview: --also takes WIDTHxHEIGHT=FILE, and not '");
    say(rt, text);
    say(rt, b"'\n");
}

// Of argument `word`; where it is none, that is said.
fn argument_target(rt: &HostRuntime, word: usize) -> Result<Target, Stopped> {
    let mut text = [0u8; TEXT];
    let n = argument_text(rt, word, &mut text);
    let Some(target) = named_target(&text[..n], word) else {
        say_no_target(rt, &text[..n]);
        return Err(Stopped);
    };
    Ok(target)
}

// What --also, argument `option`, and the word after it ask for; what is wrong is said.
fn read_target(rt: &HostRuntime, option: usize, word: usize) -> Result<Target, Stopped> {
    if !is_word(rt, option, b"--also") {
        say_usage(rt);
        return Err(Stopped);
    }
    argument_target(rt, word)
}

fn say_too_many(rt: &HostRuntime, count: usize) {
    let _ = eprintln!(rt;
        "preview: there are {count} previews to make: at most {GROUP_LIMIT} are made in one pass"
    );
}

// The previews that are asked for, the main one first, and the argument that names the badge's file, where there is one.
#[derive(Clone, Copy)]
pub struct Asked {
    pub badge: Option<usize>,
    pub count: u32,
    pub targets: [Target; GROUP_LIMIT],
}

// --badge and one word are all that follows the numbers.
fn ask_badge(rt: &HostRuntime, first: Asked, words: Words) -> Result<Asked, Stopped> {
    if words.before < words.count && words.count - words.before == 2 {
        return Ok(Asked {
            badge: Some(words.before + 1),
            ..first
        });
    }
    say_usage(rt);
    Err(Stopped)
}

// One --also after another.
fn ask_also(rt: &HostRuntime, first: Asked, words: Words) -> Result<Asked, Stopped> {
    let mut asked = first;
    for i in (words.before..words.count).step_by(2) {
        let left = words.count - i;
        let k = asked.count as usize;
        if GROUP_LIMIT <= k {
            say_too_many(rt, k + left / 2);
            return Err(Stopped);
        }
        if left == 1 {
            say_usage(rt);
            return Err(Stopped);
        }
        asked.targets[k] = read_target(rt, i, i + 1)?;
        asked.count += 1;
    }
    Ok(asked)
}

// Those of all words; the main one has these sides.
pub(crate) fn ask(rt: &HostRuntime, words: Words, sides: Dimensions) -> Result<Asked, Stopped> {
    let main = Target { sides, word: None };
    let first = Asked {
        badge: None,
        count: 1,
        targets: [main; GROUP_LIMIT],
    };
    if is_word(rt, words.before, b"--badge") {
        return ask_badge(rt, first, words);
    }
    ask_also(rt, first, words)
}

// ---- the files

// What stands after the first = of a word.
fn file_of(text: &[u8]) -> &[u8] {
    match split_at_byte(text, b'=') {
        Some((_, file)) => file,
        None => text,
    }
}

pub(crate) fn say_failed(rt: &HostRuntime, file: &[u8], error: &io::Error) {
    say(rt, b"preview: ");
    say_error(rt, file, error);
}

// A file's name as the system takes it.
pub(crate) fn path_of(file: &[u8]) -> io::Result<&str> {
    match str::from_utf8(file) {
        Ok(path) => Ok(path),
        Err(_) => Err(io::Error::from(io::ErrorKind::InvalidFilename)),
    }
}

fn create_file(rt: &HostRuntime, file: &[u8]) -> io::Result<File> {
    File::create(rt, path_of(file)?)
}

// Makes the file that argument `word` names, or empties it.
fn make_file(rt: &HostRuntime, word: usize) -> Result<Named, Stopped> {
    let mut text = [0u8; TEXT];
    let n = argument_text(rt, word, &mut text);
    let name = file_of(&text[..n]);
    match create_file(rt, name) {
        Ok(file) => Ok(Named { word, file }),
        Err(error) => {
            say_failed(rt, name, &error);
            Err(Stopped)
        }
    }
}

// Where the file does not take all of it, that is said.
pub(crate) fn write_file(rt: &HostRuntime, to: &Named, bytes: &[u8]) -> Result<(), Stopped> {
    let mut file = &to.file;
    match file.write_all(bytes) {
        Ok(()) => Ok(()),
        Err(error) => {
            let mut text = [0u8; TEXT];
            let n = argument_text(rt, to.word, &mut text);
            say_failed(rt, file_of(&text[..n]), &error);
            Err(Stopped)
        }
    }
}

// Where the previews go, a file or standard output each.
fn make_files(rt: &HostRuntime, asked: Asked) -> Result<[Option<Named>; GROUP_LIMIT], Stopped> {
    let mut files = array::from_fn(|_| None);
    for k in 0..GROUP_LIMIT.min(asked.count as usize) {
        if let Some(word) = asked.targets[k].word {
            files[k] = Some(make_file(rt, word)?);
        }
    }
    Ok(files)
}

// Writes the header of each preview, where the form has one.
fn open_all(
    rt: &HostRuntime,
    form: Form,
    group: Group,
    files: &[Option<Named>; GROUP_LIMIT],
) -> Result<(), Stopped> {
    for k in 0..GROUP_LIMIT.min(group.count as usize) {
        open_to(rt, form, &files[k], group.jobs[k].plan.target)?;
    }
    Ok(())
}

// ---- the rows

// Takes the next row of job k and writes it.
fn take_one(
    rt: &HostRuntime,
    group: Group,
    k: u32,
    to: &Option<Named>,
    out: &mut [u8],
    work: &mut [u32],
) -> Result<Group, Stopped> {
    let next = next_of(rt, take_group(group, k, out, work))?;
    write_to(rt, to, out)?;
    Ok(next)
}

// Takes and writes every row of job k that is ready.
fn take_rows(
    rt: &HostRuntime,
    fed: Group,
    k: u32,
    to: &Option<Named>,
    out: &mut [u8],
    work: &mut [u32],
) -> Result<Group, Stopped> {
    let mut group = fed;
    for _ in 0..group_ready(fed, k) {
        group = take_one(rt, group, k, to, out, work)?;
    }
    Ok(group)
}

// The n bytes of a row or of a picture, where the buffer has them; else none, which every call refuses.
pub(crate) fn part_of(n: usize, buffer: &[u8]) -> usize
    ensures { result ≤ length buffer.now }
{
    if buffer.len() < n {
        return 0;
    }
    n
}

// The same, in the part of the buffer that a row of the job takes.
fn take_job(
    rt: &HostRuntime,
    group: Group,
    k: u32,
    plan: Plan,
    to: &Option<Named>,
    out: &mut [u8],
    work: &mut [u32],
) -> Result<Group, Stopped> {
    let n = part_of(row_bytes(plan, plan.target.width), out);
    take_rows(rt, group, k, to, &mut out[..n], work)
}

// Every row that is ready, of one job after another.
fn take_all(
    rt: &HostRuntime,
    fed: Group,
    files: &[Option<Named>; GROUP_LIMIT],
    out: &mut [u8],
    work: &mut [u32],
) -> Result<Group, Stopped> {
    let mut group = fed;
    for k in 0..GROUP_LIMIT.min(fed.count as usize) {
        let plan = group.jobs[k].plan;
        group = take_job(rt, group, k as u32, plan, &files[k], out, work)?;
    }
    Ok(group)
}

// Reads a row and offers it.
fn feed(
    rt: &HostRuntime,
    group: Group,
    row: &mut [u8],
    work: &mut [u32],
) -> Result<Group, Stopped> {
    if rt.stdin().read_exact(row).is_err() {
        say_too_short(rt, group.jobs[0].accepted);
        return Err(Stopped);
    }
    next_of(rt, offer_group(group, row, work))
}

// A row in, and the rows that it makes ready out.
fn pass(
    rt: &HostRuntime,
    group: Group,
    files: &[Option<Named>; GROUP_LIMIT],
    row: &mut [u8],
    out: &mut [u8],
    work: &mut [u32],
) -> Result<Group, Stopped> {
    let fed = feed(rt, group, row, work)?;
    take_all(rt, fed, files, out, work)
}

// All of the source's rows, one after another.
fn pass_all(
    rt: &HostRuntime,
    fresh: Group,
    height: u32,
    files: &[Option<Named>; GROUP_LIMIT],
    row: &mut [u8],
    out: &mut [u8],
    work: &mut [u32],
) -> Result<(), Stopped> {
    let mut group = fresh;
    for _ in 0..height {
        group = pass(rt, group, files, row, out, work)?;
    }
    Ok(())
}

// Runs a fresh group on the rows of standard input.
fn run_group(
    rt: &HostRuntime,
    group: Group,
    files: &[Option<Named>; GROUP_LIMIT],
    row: &mut [u8],
    out: &mut [u8],
    work: &mut [u32],
) -> Result<(), Stopped> {
    let plan = group.jobs[0].plan;
    let n = part_of(row_bytes(plan, plan.source.width), row);
    pass_all(
        rt,
        group,
        plan.source.height,
        files,
        &mut row[..n],
        out,
        work,
    )
}

// ---- the pictures

// A plan for each preview.
fn plan_all(
    rt: &HostRuntime,
    source: Dimensions,
    crop: Rect,
    asked: Asked,
) -> Result<[Plan; GROUP_LIMIT], Stopped> {
    let mut plans = [picture(source, crop, source); GROUP_LIMIT];
    for k in 0..GROUP_LIMIT.min(asked.count as usize) {
        let sized = preview_size(source, crop, asked.targets[k].sides);
        plans[k] = picture(source, crop, sized.map_err(|why| stop(rt, why))?);
    }
    Ok(plans)
}

// Makes the files, and writes to them and to standard output: one row of the widest picture in, one out.
fn run_all(
    rt: &HostRuntime,
    form: Form,
    asked: Asked,
    group: Group,
    work: &mut [u32],
) -> Result<(), Stopped> {
    let mut row = [0u8; 65536];
    let mut out = [0u8; 65536];
    let files = make_files(rt, asked)?;
    open_all(rt, form, group, &files)?;
    run_group(rt, group, &files, &mut row, &mut out, work)?;
    close(rt)
}

// Starts the group. The files are made once all sizes have passed, so that a refused picture empties none.
fn start_all(
    rt: &HostRuntime,
    form: Form,
    source: Dimensions,
    crop: Rect,
    asked: Asked,
    work: &mut [u32],
) -> Result<(), Stopped> {
    let plans = plan_all(rt, source, crop, asked)?;
    let group = next_of(rt, start_group(plans, asked.count, work))?;
    run_all(rt, form, asked, group, work)
}

pub(crate) fn also(
    rt: &HostRuntime,
    form: Form,
    source: Dimensions,
    crop: Rect,
    asked: Asked,
) -> Result<(), Stopped> {
    let mut work = [0u32; WORK];
    start_all(rt, form, source, crop, asked, &mut work)
}
