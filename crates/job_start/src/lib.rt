// The start of a job (SCOPE, "The job" and "Planes"): a fresh record for a picture or for a plane, and the work rows cleared.
#![tactic(auto)]

ghost use Rattle.std.specs.Prelude.{◌≡◌, length};
ghost use Rattle.pixels.specs.Refusals.{answer_number, value_or};
ghost use Rattle.job_rules.specs.Rules.{plan_of, plane_of, start_number};
ghost use Rattle.job.specs.Record.{fresh};
ghost use Rattle.job_start.specs.Start.{start_work};

use job::Job;
use job_rules::{Kind, Plan, check_start, row_bytes};
use pixels::{Dimensions, PIXEL_LANES, Rect, Refusal};
use pixels_layout::PixelLayout;

// A fresh job with this plan, and both halves of the work rows cleared.
fn begin(plan: Plan, work: &mut [u32]) -> Result<Job, Refusal>
    ensures number { answer_number result ≡ start_number plan (length work.old) }
    ensures job { value_or (fresh plan) result ≡ fresh plan }
    ensures work { work.new ≡ start_work plan work.old }
{
    check_start(plan, work.len())?;
    work[..2 * row_bytes(plan, plan.target.width)].fill(0);
    Ok(Job {
        plan,
        accepted: 0,
        taken: 0,
        flag: false,
    })
}

// A picture. Rules out: a half left as it was; the whole slice cleared, beyond the halves too; a fresh job that has accepted a row; every picture started as
// Rgba8.
pub fn start(
    source: Dimensions,
    layout: PixelLayout,
    crop: Rect,
    target: Dimensions,
    work: &mut [u32],
) -> Result<Job, Refusal>
    ensures number { answer_number result ≡ start_number (plan_of source layout crop target) (length work.old) }
    ensures job { value_or (fresh (plan_of source layout crop target)) result ≡ fresh (plan_of source layout crop target) }
    ensures work { work.new ≡ start_work (plan_of source layout crop target) work.old }
{
    let plan = Plan {
        source,
        layout,
        crop,
        target,
        kind: Kind::Picture,
        lanes: PIXEL_LANES as u32,
    };
    begin(plan, work)
}

// A plane of so many lanes. Rules out: a plane started as a picture; always four lanes.
pub fn start_plane(
    source: Dimensions,
    lanes: u32,
    crop: Rect,
    target: Dimensions,
    work: &mut [u32],
) -> Result<Job, Refusal>
    ensures number { answer_number result ≡ start_number (plane_of source lanes crop target) (length work.old) }
    ensures job { value_or (fresh (plane_of source lanes crop target)) result ≡ fresh (plane_of source lanes crop target) }
    ensures work { work.new ≡ start_work (plane_of source lanes crop target) work.old }
{
    let plan = Plan {
        source,
        layout: PixelLayout::Rgba8,
        crop,
        target,
        kind: Kind::Plane,
        lanes,
    };
    begin(plan, work)
}
