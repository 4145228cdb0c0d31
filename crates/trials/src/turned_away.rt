// What is turned away of planes: starts by their order 1, 10, 2, 5, records that are neither a picture's nor a plane's, and three planes of which one is refused.
use crate::planes::size;
use crate::{begun, refused_line, whole, words_line};
use job::Job;
use job_planes::start_planes;
use job_rules::{Kind, Plan};
use job_start::start_plane;
use pixels::{Rect, Refusal};
use pixels_layout::PixelLayout;
use std::io;

pub(crate) fn trials(rt: &impl Print) -> io::Result<()> {
    starts(rt)?;
    records(rt)?;
    threes(rt)
}

// ---- starts

fn starts(rt: &impl Print) -> io::Result<()> {
    // 10: no lanes; five
    started(rt, 0, 2, 2, &mut [7; 20])?;
    started(rt, 5, 2, 2, &mut [7; 20])?;
    // 1 before 10, 10 before 2, 2 before 5
    started(rt, 5, 0, 2, &mut [7; 20])?;
    started(rt, 5, 2, 3, &mut [7; 20])?;
    started(rt, 3, 2, 3, &mut [7; 11])?;
    // 5: a value less than two halves of three lanes
    started(rt, 3, 2, 2, &mut [7; 11])?;
    started(rt, 3, 2, 2, &mut [7; 12])
}

// A plane `width` by 1 and its crop, to a target two wide.
fn started(
    rt: &impl Print,
    lanes: u32,
    width: u32,
    crop_width: u32,
    work: &mut [u32],
) -> io::Result<()> {
    let source = size(width, 1);
    let target = size(2, 1);
    let crop = Rect::new(0, 0, crop_width, 1);
    said_line(rt, start_plane(source, lanes, crop, target, work))
}

// Whether a call went through, or why it was turned away.
fn said_line<T: Copy>(rt: &impl Print, said: Result<T, Refusal>) -> io::Result<()> {
    match said {
        Ok(_) => println!(rt; "went through"),
        Err(why) => refused_line(rt, why),
    }
}

// ---- records: 6 by offer and by take

// One column of two lanes, two rows high, of which a row came in and went out.
fn half_way(rt: &impl Print) -> io::Result<Job> {
    let mut work = [7u32; 4];
    let source = size(1, 2);
    let started = start_plane(source, 2, whole(source), source, &mut work);
    let fresh = begun(rt, started, source, source)?;
    let first = fresh.offer(&[3, 4], &mut work).next;
    let mut out = [1u8; 2];
    Ok(first.take(&mut out, &mut work).next)
}

fn records(rt: &impl Print) -> io::Result<()> {
    // the record as it is: a row goes in, and none is ready
    told(rt, Kind::Plane, PixelLayout::Rgba8, 2, false)?;
    // a picture of another count than 4; of 4 the lengths are wrong
    told(rt, Kind::Picture, PixelLayout::Rgba8, 2, false)?;
    told(rt, Kind::Picture, PixelLayout::Rgba8, 3, false)?;
    told(rt, Kind::Picture, PixelLayout::Rgba8, 5, false)?;
    told(rt, Kind::Picture, PixelLayout::Rgba8, 4, false)?;
    // a plane of no lanes, of five, in another layout, with a flag
    told(rt, Kind::Plane, PixelLayout::Rgba8, 0, false)?;
    told(rt, Kind::Plane, PixelLayout::Rgba8, 5, false)?;
    told(rt, Kind::Plane, PixelLayout::Argb8, 2, false)?;
    told(rt, Kind::Plane, PixelLayout::Bgra8, 2, false)?;
    told(rt, Kind::Plane, PixelLayout::Rgba8, 2, true)
}

// The record with another kind, layout, count or flag.
fn told(
    rt: &impl Print,
    kind: Kind,
    layout: PixelLayout,
    lanes: u32,
    flag: bool,
) -> io::Result<()> {
    let job = half_way(rt)?;
    tried(
        rt,
        Job {
            plan: Plan {
                layout,
                kind,
                lanes,
                ..job.plan
            },
            flag,
            ..job
        },
    )
}

// The next row offered, and a row taken: none is ready.
fn tried(rt: &impl Print, job: Job) -> io::Result<()> {
    let mut work = [7u32; 16];
    let mut out = [1u8; 2];
    said_line(rt, job.offer(&[5, 6], &mut work).said)?;
    said_line(rt, job.take(&mut out, &mut work).said)
}

// ---- three planes: none is started where a number applies to any

fn threes(rt: &impl Print) -> io::Result<()> {
    // no height, and 1 is told before 5; a third slice that is a value short
    three(rt, 0, &mut [9; 5])?;
    three(rt, 3, &mut [9; 5])?;
    three(rt, 3, &mut [9; 6])
}

// 3 by `height` to 5 by 2, with these work values for the last plane; all three slices afterwards.
fn three(rt: &impl Print, height: u32, cr: &mut [u32]) -> io::Result<()> {
    let mut luma = [7u32; 10];
    let mut cb = [8u32; 6];
    let source = size(3, height);
    let target = size(5, 2);
    said_line(rt, start_planes(source, target, &mut luma, &mut cb, cr))?;
    words_line(rt, &luma)?;
    words_line(rt, &cb)?;
    words_line(rt, cr)
}
