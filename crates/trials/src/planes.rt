// Planes: SCOPE's trials of one lane, then two, three and four lanes, each scaled as it is; and three planes started together.
use crate::{begun, fill, job_lines, refused_line, turns, whole, words_line};
use job::Job;
use job_planes::{Planes, start_planes};
use job_start::start_plane;
use pixels::{Dimensions, Rect, Refusal};
use std::io;

pub(crate) fn trials(rt: &impl Print) -> io::Result<()> {
    one_lane(rt)?;
    one_column(rt)?;
    two_lanes(rt)?;
    three_lanes(rt)?;
    four_lanes(rt)?;
    filled(rt, 3, 4)?;
    filled(rt, 7, 11)?;
    cropped(rt)?;
    together(rt)
}

// ---- small planes

// "10, 20: 15"; "10, 21: 16"; "10, 21 to 3 wide: 10, 16, 21"; "10, 21, 30 to 2 wide: 14, 27"
fn one_lane(rt: &impl Print) -> io::Result<()> {
    row(rt, 1, 2, 1, &[10, 20])?;
    row(rt, 1, 2, 1, &[10, 21])?;
    row(rt, 1, 2, 3, &[10, 21])?;
    row(rt, 1, 3, 2, &[10, 21, 30])?;
    // "Opaque 1 by 1 to 2 by 1: the pixel twice"
    row(rt, 1, 1, 2, &[9])
}

// "1 by 6 all 255, to 1 by 5": the last is 254; made taller, a column has its own bytes, of any lanes
fn one_column(rt: &impl Print) -> io::Result<()> {
    plane(
        rt,
        1,
        size(1, 6),
        size(1, 5),
        &[255, 255, 255, 255, 255, 255],
    )?;
    plane(rt, 1, size(1, 1), size(1, 2), &[9])?;
    plane(rt, 2, size(1, 1), size(1, 2), &[9, 8])?;
    plane(rt, 3, size(1, 1), size(1, 2), &[9, 8, 7])?;
    plane(rt, 4, size(1, 1), size(1, 2), &[9, 8, 7, 6])?;
    plane(rt, 1, size(1, 2), size(1, 3), &[10, 21])
}

// The trials of one lane, two at once.
fn two_lanes(rt: &impl Print) -> io::Result<()> {
    row(rt, 2, 2, 1, &[10, 10, 20, 21])?;
    row(rt, 2, 2, 3, &[10, 21, 21, 10])
}

fn three_lanes(rt: &impl Print) -> io::Result<()> {
    row(rt, 3, 3, 2, &[10, 0, 30, 21, 0, 21, 30, 255, 10])?;
    row(rt, 3, 2, 3, &[10, 255, 21, 21, 0, 10])
}

// A fourth lane is no alpha: nothing is matted or restored.
fn four_lanes(rt: &impl Print) -> io::Result<()> {
    row(rt, 4, 2, 1, &[200, 100, 50, 1, 100, 50, 201, 2])?;
    row(rt, 4, 2, 2, &[200, 100, 50, 1, 100, 50, 201, 0])?;
    row(rt, 4, 2, 3, &[200, 100, 50, 1, 100, 50, 201, 0])
}

pub(crate) fn size(width: u32, height: u32) -> Dimensions {
    Dimensions { width, height }
}

// One row.
fn row(rt: &impl Print, lanes: u32, width: u32, target_width: u32, bytes: &[u8]) -> io::Result<()> {
    plane(rt, lanes, size(width, 1), size(target_width, 1), bytes)
}

fn plane(
    rt: &impl Print,
    lanes: u32,
    source: Dimensions,
    target: Dimensions,
    bytes: &[u8],
) -> io::Result<()> {
    window(rt, lanes, source, whole(source), target, 0, bytes)
}

// A plane offered in single rows, or in ragged cuts. The work values are some before the start.
fn window(
    rt: &impl Print,
    lanes: u32,
    source: Dimensions,
    crop: Rect,
    target: Dimensions,
    ragged: u32,
    bytes: &[u8],
) -> io::Result<()> {
    let mut work = [7u32; 56];
    let mut out = [1u8; 308];
    let started = start_plane(source, lanes, crop, target, &mut work);
    let fresh = begun(rt, started, source, target)?;
    let done = turns(fresh, 64, 1, ragged, bytes, &mut work, &mut out);
    job_lines(rt, done, &out)
}

// ---- 5 by 7, of one to four lanes, in ragged cuts

fn filled(rt: &impl Print, width: u32, height: u32) -> io::Result<()> {
    for lanes in 1..5 {
        ragged(rt, lanes, size(width, height))?;
    }
    Ok(())
}

// The bytes of four lanes; of fewer, the source's last row ends before them.
fn ragged(rt: &impl Print, lanes: u32, target: Dimensions) -> io::Result<()> {
    let mut bytes = [0u8; 140];
    fill(&mut bytes);
    let source = size(5, 7);
    window(rt, lanes, source, whole(source), target, 3, &bytes)
}

// Three lanes, 3 by 4 from pixel 1 of row 2 on.
fn cropped(rt: &impl Print) -> io::Result<()> {
    let mut bytes = [0u8; 105];
    fill(&mut bytes);
    let crop = Rect::new(1, 2, 3, 4);
    window(rt, 3, size(5, 7), crop, size(2, 5), 0, &bytes)
}

// ---- luma 3 by 3 to 5 by 2; both chroma planes 2 by 2 to 3 by 1

fn together(rt: &impl Print) -> io::Result<()> {
    let mut luma = [7u32; 11];
    let mut cb = [8u32; 7];
    let mut cr = [9u32; 8];
    three(rt, &mut luma, &mut cb, &mut cr)
}

fn three(rt: &impl Print, luma: &mut [u32], cb: &mut [u32], cr: &mut [u32]) -> io::Result<()> {
    let started = start_planes(size(3, 3), size(5, 2), luma, cb, cr);
    // both halves cleared, and nothing after them
    words_line(rt, luma)?;
    words_line(rt, cb)?;
    words_line(rt, cr)?;
    run_all(rt, started, luma, cb, cr)
}

fn run_all(
    rt: &impl Print,
    started: Result<Planes, Refusal>,
    luma: &mut [u32],
    cb: &mut [u32],
    cr: &mut [u32],
) -> io::Result<()> {
    match started {
        Err(why) => refused_line(rt, why),
        Ok(planes) => {
            run(
                rt,
                planes.luma,
                &[10, 21, 30, 40, 50, 60, 0, 255, 128],
                luma,
            )?;
            run(rt, planes.cb, &[10, 21, 30, 41], cb)?;
            run(rt, planes.cr, &[255, 0, 255, 254], cr)
        }
    }
}

fn run(rt: &impl Print, fresh: Job, bytes: &[u8], work: &mut [u32]) -> io::Result<()> {
    let mut out = [1u8; 10];
    let done = turns(fresh, 64, 1, 0, bytes, work, &mut out);
    job_lines(rt, done, &out)
}
