// Whole pictures scaled: resize, a job with the full crop (SCOPE, "The job"; the Rust: Image::resize and rescale_plane).
#![tactic(auto)]

ghost use Rattle.std.specs.Prelude.{◌≡◌, ◌+◌, ◌*◌, ◌≤◌, length, take, drop};
ghost use Rattle.pixels.specs.Refusals.{answer_number, flagged_flag};
ghost use Rattle.pixels.specs.Sizes.{row_bytes};
ghost use Rattle.job_rules.specs.Rules.{lanes_of};
ghost use Rattle.job.specs.Calls.{take_job, take_work};
ghost use Rattle.job_resize.specs.Resize.{resize_number, resize_flag, resize_out, resize_work};
ghost use Rattle.job_resize.specs.Inner.{emitted_out, Asked, Driven, fed_job, fed_work};

use job::Job;
use job_rules::row_bytes;
use job_start::start;
use pixels::{Dimensions, PIXEL_LANES, Rect, Refusal};
use pixels_layout::PixelLayout;
use pixels_sizes::{check_sizes, wrong_length};

// Where no row is ready, offers all the rows that remain.
fn feed(job: Job, pixels: &[u8], work: &mut [u32]) -> Job
    requires { row_bytes (lanes_of job.plan) job.plan.source.width * job.accepted ≤ length pixels.now }
    ensures job { result ≡ fed_job job pixels.now (length work.old) }
    ensures work { work.new ≡ fed_work job pixels.now work.old }
{
    if job.ready() != 0 {
        return job;
    }
    let at = row_bytes(job.plan, job.plan.source.width) * job.accepted as usize;
    job.offer(&pixels[at..], work).next
}

// Takes the next row into its place of the output.
fn emit(job: Job, out: &mut [u8], work: &mut [u32]) -> Job
    requires { row_bytes (lanes_of job.plan) job.plan.target.width * job.taken + row_bytes (lanes_of job.plan) job.plan.target.width ≤ length out.old }
    ensures job { result ≡ take_job job (row_bytes (lanes_of job.plan) job.plan.target.width) work.old }
    ensures out { out.new ≡ emitted_out job out.old work.old }
    ensures work { work.new ≡ take_work job (row_bytes (lanes_of job.plan) job.plan.target.width) work.old }
{
    let size = row_bytes(job.plan, job.plan.target.width);
    let at = size * job.taken as usize;
    job.take(&mut out[at..at + size], work).next
}

// Drives a fresh job to its end. The Rust: rescale_plane.
fn drive(first: Job, pixels: &[u8], out: &mut [u8], work: &mut [u32]) -> Job
    requires { Asked first pixels.now out.old work.old }
    ensures { Driven first.plan pixels.now work.old result.flag out.new work.new }
{
    let mut job = first;
    while job.taken < job.plan.target.height {
        let fed = feed(job, pixels, work);
        job = emit(fed, out, work);
    }
    job
}

// 1, 3, 4, 5 ascending, of the lengths lent.
fn check_resize(
    source: Dimensions,
    target: Dimensions,
    pixels: usize,
    out: usize,
    work: usize,
) -> Result<(), Refusal>
    ensures { answer_number result ≡ resize_number source target pixels out work }
{
    let crop = Rect::new(0, 0, source.width, source.height);
    check_sizes(source, crop, target)?;
    if wrong_length(pixels, source) {
        return Err(Refusal::PixelBufferMismatch);
    }
    if wrong_length(out, target) {
        return Err(Refusal::OutputLength);
    }
    if work < 2 * PIXEL_LANES * target.width as usize {
        return Err(Refusal::WorkLength);
    }
    Ok(())
}

// A picture scaled to the target's size; returns its alpha flag. The Rust: Image::resize.
// Rules out: equal sizes copied; every output of the exact length refused; the flag turned round; 3 told for the output's length; rows written at the place of the rows
// accepted; a picture that stops a row early.
pub fn resize(
    source: Dimensions,
    layout: PixelLayout,
    target: Dimensions,
    pixels: &[u8],
    out: &mut [u8],
    work: &mut [u32],
) -> Result<bool, Refusal>
    ensures number { answer_number result ≡ resize_number source target (length pixels.now) (length out.old) (length work.old) }
    ensures flag { flagged_flag result ≡ resize_flag source layout target pixels.now (length out.old) (length work.old) }
    ensures out { out.new ≡ resize_out source layout target pixels.now out.old (length work.old) }
    ensures work { work.new ≡ resize_work source layout target pixels.now (length out.old) work.old }
{
    check_resize(source, target, pixels.len(), out.len(), work.len())?;
    let crop = Rect::new(0, 0, source.width, source.height);
    let job = start(source, layout, crop, target, work).unwrap();
    let last = drive(job, pixels, out, work);
    Ok(last.flag)
}
