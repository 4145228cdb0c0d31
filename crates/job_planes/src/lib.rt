// A picture of three planes (SCOPE, "Planes"): luma in full size, both chroma planes in half size, rounded up; a job each.
#![tactic(auto)]

ghost use Rattle.std.specs.Prelude.{◌≡◌, IfOk, length};
ghost use Rattle.pixels.specs.Refusals.{answer_number, value_or};
ghost use Rattle.job_start.specs.Start.{start_work};
ghost use Rattle.job.specs.Record.{fresh};
ghost use Rattle.job_rules.specs.Rules.{start_number};
ghost use Rattle.job_planes.specs.Planes.{chroma_side, chroma_of, plane_for, chroma_for, planes_number, plane_work};

use job::Job;
use job_start::start_plane;
use pixels::{Dimensions, Rect, Refusal, bad_size};

// Three fresh jobs.
#[derive(Clone, Copy)]
pub struct Planes {
    pub luma: Job,
    pub cb: Job,
    pub cr: Job,
}

// Half of the side, rounded up.
fn half(side: u32) -> u32
    ensures { result ≡ chroma_side side }
{
    side / 2 + side % 2
}

// The size of a chroma plane beside a luma plane of this size. Rules out: a side rounded down; width and height exchanged.
pub fn chroma_size(size: Dimensions) -> Dimensions
    ensures { result ≡ chroma_of size }
{
    Dimensions {
        width: half(size.width),
        height: half(size.height),
    }
}

// The tests, each number over all three planes before the next; of the work values lent to each.
fn check_planes(
    source: Dimensions,
    target: Dimensions,
    luma: usize,
    cb: usize,
    cr: usize,
) -> Result<(), Refusal>
    ensures { answer_number result ≡ planes_number source target luma cb cr }
{
    if bad_size(source) {
        return Err(Refusal::InvalidDimensions);
    }
    if bad_size(target) {
        return Err(Refusal::InvalidDimensions);
    }
    let half_target = chroma_size(target);
    if bad_size(chroma_size(source)) {
        return Err(Refusal::InvalidDimensions);
    }
    if bad_size(half_target) {
        return Err(Refusal::InvalidDimensions);
    }
    if luma < 2 * target.width as usize {
        return Err(Refusal::WorkLength);
    }
    if cb < 2 * half_target.width as usize {
        return Err(Refusal::WorkLength);
    }
    if cr < 2 * half_target.width as usize {
        return Err(Refusal::WorkLength);
    }
    Ok(())
}

// An uncropped plane of one lane.
fn whole_plane(source: Dimensions, target: Dimensions, work: &mut [u32]) -> Result<Job, Refusal>
    ensures number { answer_number result ≡ start_number (plane_for source target) (length work.old) }
    ensures job { value_or (fresh (plane_for source target)) result ≡ fresh (plane_for source target) }
    ensures work { work.new ≡ start_work (plane_for source target) work.old }
{
    let crop = Rect::new(0, 0, source.width, source.height);
    start_plane(source, 1, crop, target, work)
}

// Three jobs of one lane each, uncropped, and their work rows cleared; or none where a number applies to any: each number is looked for over all three planes
// before the next.
// Rules out: a chroma plane in full size; a slice cleared though another is too short.
pub fn start_planes(
    source: Dimensions,
    target: Dimensions,
    luma: &mut [u32],
    cb: &mut [u32],
    cr: &mut [u32],
) -> Result<Planes, Refusal>
    ensures number { answer_number result ≡ planes_number source target (length luma.old) (length cb.old) (length cr.old) }
    ensures jobs { IfOk result (λ p. (p.luma ≡ fresh (plane_for source target)) × (p.cb ≡ fresh (chroma_for source target)) × (p.cr ≡ fresh (chroma_for source target))) }
    ensures luma { luma.new ≡ plane_work (planes_number source target (length luma.old) (length cb.old) (length cr.old)) (plane_for source target) luma.old }
    ensures cb { cb.new ≡ plane_work (planes_number source target (length luma.old) (length cb.old) (length cr.old)) (chroma_for source target) cb.old }
    ensures cr { cr.new ≡ plane_work (planes_number source target (length luma.old) (length cb.old) (length cr.old)) (chroma_for source target) cr.old }
{
    check_planes(source, target, luma.len(), cb.len(), cr.len())?;
    let half_source = chroma_size(source);
    let half_target = chroma_size(target);
    Ok(Planes {
        luma: whole_plane(source, target, luma).unwrap(),
        cb: whole_plane(half_source, half_target, cb).unwrap(),
        cr: whole_plane(half_source, half_target, cr).unwrap(),
    })
}
