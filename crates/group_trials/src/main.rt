// Runs groups: three previews of one small picture in one pass, then starts and takes that are turned away. The file `stdout` holds the number of each call as
// SCOPE, "Groups", has it, and of each row taken the bytes, in hexadecimal, that the original makes of that job alone.
#![tactic(auto)]

ghost use Rattle.std.specs.Prelude.{◌≤◌};

use group::offer_group;
use group_rules::{GROUP_LIMIT, Group};
use group_start::start_group;
use group_take::take_group;
use job::Job;
use job_rules::{Kind, Plan, row_bytes};
use pixels::{Dimensions, Rect, Refusal};
use pixels_layout::PixelLayout;
use std::io;

fn main(rt: HostRuntime) -> io::Result<()> {
    previews(&rt)?;
    starts(&rt)?;
    turned_away(&rt)
}

// ---- a picture of 3 by 6 to 2 by 2, four of its rows to 2 by 3, and 2 by 2 of it to 2 by 3

fn previews(rt: &impl Print) -> io::Result<()> {
    one_pass(
        rt,
        b"\x3c\xbb\x3e\xda\xb7\x5c\x7f\x38\x0d\xde\x10\x29\
        \x7f\xa4\x25\xd8\x79\x63\xe0\x14\xfa\x5b\xc0\x9b\
        \x99\x79\xfa\x72\x80\x38\x47\xcc\x2f\x68\xfa\x3d\
        \xe4\x48\x78\x4c\xe3\x88\x64\x99\x1a\x28\x14\x24\
        \xc8\x49\x19\x75\x27\x5b\x00\xab\x3e\x4e\x91\xb6\
        \x65\xa4\x25\x3b\x17\x90\xea\xf2\x17\x7c\x27\x73",
    )
}

fn one_pass(rt: &impl Print, pixels: &[u8]) -> io::Result<()> {
    let mut work = [7u32; 49];
    let started = start_group(three(), 3, &mut work);
    let fresh = started.next;
    let done = turns(rt, fresh, 5, pixels, &mut work)?;
    counts(rt, done)
}

fn three() -> [Plan; GROUP_LIMIT] {
    let all = plan(0, 0, 3, 6, 2, 2);
    let mut plans = [all; GROUP_LIMIT];
    plans[1] = plan(0, 1, 3, 4, 2, 3);
    plans[2] = plan(1, 3, 2, 2, 2, 3);
    plans
}

fn plan(x: u32, y: u32, width: u32, height: u32, target_width: u32, target_height: u32) -> Plan {
    Plan {
        source: Dimensions {
            width: 3,
            height: 6,
        },
        layout: PixelLayout::Rgba8,
        crop: Rect {
            x,
            y,
            width,
            height,
        },
        target: Dimensions {
            width: target_width,
            height: target_height,
        },
        kind: Kind::Picture,
        lanes: 4,
    }
}

fn turns(
    rt: &impl Print,
    fresh: Group,
    times: u32,
    pixels: &[u8],
    work: &mut [u32],
) -> io::Result<Group> {
    let mut group = fresh;
    for _ in 0..times {
        group = turn(rt, group, pixels, work)?;
    }
    Ok(group)
}

// Offers all rows left and takes a row of each job; a call that is turned away leaves all as it was.
fn turn(rt: &impl Print, group: Group, pixels: &[u8], work: &mut [u32]) -> io::Result<Group> {
    let fed = offer_rest(rt, group, pixels, work)?;
    let one = take_row(rt, fed, 0, work)?;
    let two = take_row(rt, one, 1, work)?;
    take_row(rt, two, 2, work)
}

// The source's rows that the group has not accepted.
fn offer_rest(rt: &impl Print, group: Group, pixels: &[u8], work: &mut [u32]) -> io::Result<Group> {
    let job = group.jobs[0];
    let row = row_bytes(job.plan, job.plan.source.width);
    let at = place(row, job.accepted, pixels.len());
    let offered = offer_group(group, &pixels[at..], work);
    number(rt, offered.said)?;
    println!(rt; "{} rows accepted", offered.said.unwrap_or(0))?;
    Ok(offered.next)
}

// The next row of a job.
fn take_row(rt: &impl Print, group: Group, i: u32, work: &mut [u32]) -> io::Result<Group> {
    let mut row = [1u8; 8];
    let taken = take_group(group, i, &mut row, work);
    number(rt, taken.said)?;
    hex_line(rt, &row)?;
    Ok(taken.next)
}

// Where row k starts, of `row` bytes each, or the end of the bytes where that is before it.
fn place(row: usize, k: u32, len: usize) -> usize
    ensures { result ≤ len }
{
    row.saturating_mul(k as usize).min(len)
}

// ---- starts

fn starts(rt: &impl Print) -> io::Result<()> {
    enough(rt)?;
    short(rt)?;
    many(rt)?;
    none(rt)?;
    unlike(rt)
}

// As many values as all jobs need; those of one job
fn enough(rt: &impl Print) -> io::Result<()> {
    let mut work = [7u32; 48];
    let mut own = [7u32; 16];
    start_line(rt, three(), 3, &mut work)?;
    start_line(rt, three(), 1, &mut own)
}

// One value too few
fn short(rt: &impl Print) -> io::Result<()> {
    let mut work = [7u32; 47];
    start_line(rt, three(), 3, &mut work)
}

// Six jobs; a seventh; a seventh, the sixth cropped beyond its source, which is ahead of 14
fn many(rt: &impl Print) -> io::Result<()> {
    let mut work = [7u32; 128];
    start_line(rt, three(), 6, &mut work)?;
    start_line(rt, three(), 7, &mut work)?;
    start_line(rt, with_last(plan(1, 0, 3, 6, 2, 2)), 7, &mut work)
}

fn none(rt: &impl Print) -> io::Result<()> {
    let mut work = [7u32; 1];
    start_line(rt, three(), 0, &mut work)
}

// Another source, another layout, a plane; a target of no width, which is ahead of 13
fn unlike(rt: &impl Print) -> io::Result<()> {
    differ(rt, other(7, PixelLayout::Rgba8, Kind::Picture))?;
    differ(rt, other(6, PixelLayout::Argb8, Kind::Picture))?;
    differ(rt, other(6, PixelLayout::Rgba8, Kind::Plane))?;
    differ(rt, plan(0, 0, 3, 6, 0, 2))
}

fn other(height: u32, layout: PixelLayout, kind: Kind) -> Plan {
    Plan {
        source: Dimensions { width: 3, height },
        layout,
        crop: Rect {
            x: 0,
            y: 0,
            width: 3,
            height: 6,
        },
        target: Dimensions {
            width: 2,
            height: 2,
        },
        kind,
        lanes: 4,
    }
}

fn differ(rt: &impl Print, last: Plan) -> io::Result<()> {
    let mut work = [7u32; 1];
    start_line(rt, with_last(last), GROUP_LIMIT as u32, &mut work)
}

// The last plan replaced.
fn with_last(last: Plan) -> [Plan; GROUP_LIMIT] {
    let mut plans = three();
    plans[GROUP_LIMIT - 1] = last;
    plans
}

fn start_line(
    rt: &impl Print,
    plans: [Plan; GROUP_LIMIT],
    count: u32,
    work: &mut [u32],
) -> io::Result<()> {
    let started = start_group(plans, count, work);
    number(rt, started.said)?;
    println!(rt; "start")
}

// ---- takes, after three rows, which make a row of all but the last job

fn turned_away(rt: &impl Print) -> io::Result<()> {
    let mut work = [7u32; 48];
    let rows = [9u8; 72];
    takes(rt, &rows, &mut work)
}

fn takes(rt: &impl Print, rows: &[u8], work: &mut [u32]) -> io::Result<()> {
    let started = start_group(three(), 3, work);
    let offered = offer_group(started.next, rows, work);
    let group = offered.next;
    lengths(rt, group)?;
    ready(rt, group, work)
}

// A job that the group lacks, ahead of wrong lengths; a wrong length, ahead of too few values; and the values of its own part, but not of all
fn lengths(rt: &impl Print, group: Group) -> io::Result<()> {
    let mut byte = [1u8; 1];
    let mut own = [7u32; 16];
    let mut row = [1u8; 8];
    take_line(rt, group, 3, &mut byte, &mut own)?;
    take_line(rt, group, 0, &mut byte, &mut own)?;
    take_line(rt, group, 0, &mut row, &mut own)
}

// None ready, and one
fn ready(rt: &impl Print, group: Group, work: &mut [u32]) -> io::Result<()> {
    let mut row = [1u8; 8];
    take_line(rt, group, 2, &mut row, work)?;
    take_line(rt, group, 1, &mut row, work)
}

fn take_line(
    rt: &impl Print,
    group: Group,
    job: u32,
    out: &mut [u8],
    work: &mut [u32],
) -> io::Result<()> {
    let taken = take_group(group, job, out, work);
    number(rt, taken.said)?;
    println!(rt; "take")
}

// ---- writing

fn number<T: Copy>(rt: &impl Print, answer: Result<T, Refusal>) -> io::Result<()> {
    match answer {
        Ok(_) => print!(rt; "0: "),
        Err(why) => print!(rt; "{}: ", why.number()),
    }
}

fn counts(rt: &impl Print, group: Group) -> io::Result<()> {
    let all = group.jobs[0];
    let rows = group.jobs[1];
    let part = group.jobs[2];
    count_line(rt, all)?;
    count_line(rt, rows)?;
    count_line(rt, part)
}

// Rows accepted, rows taken and the flag.
fn count_line(rt: &impl Print, job: Job) -> io::Result<()> {
    println!(rt;
        "{} accepted, {} taken, flag {}",
        job.accepted, job.taken, job.flag
    )
}

// Kept, as `number` and `place`, in each program of trials, so that it is read alone: a crate for these few lines would owe contracts.
fn hex_line(rt: &impl Print, bytes: &[u8]) -> io::Result<()> {
    for byte in bytes {
        print!(rt; "{byte:02x}")?;
    }
    println!(rt)
}
