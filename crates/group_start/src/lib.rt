// The start of a group (SCOPE, "Groups"): its tests, fresh jobs for the plans given, and their parts of the work values cleared.
#![tactic(auto)]

ghost use Rattle.std.specs.Prelude.{◌≡◌, ◌++◌, ◌≤◌, length, drop, replicate};
ghost use Rattle.pixels.specs.Refusals.{answer_number, value_or};
ghost use Rattle.group_rules.specs.Group.{total, some, formed, looked, group_of};
ghost use Rattle.group_rules.specs.Tests.{group_start_number};
ghost use Rattle.group_tests.specs.Placed.{place_if};
ghost use Rattle.group_start.specs.Inner.{wrong_at, lanes_at, beyond_at};
ghost use Rattle.group_start.specs.Start.{group_started, group_start_work};

use group_rules::{GROUP_LIMIT, Group, jobs_differ, looked_at, no_job};
use group_tests::group_need;
use job::{Answer, Job};
use job_rules::{Kind, Plan};
use pixels::{PIXEL_LANES, Refusal};
use pixels_layout::PixelLayout;
use pixels_sizes::{bad_lanes, crop_beyond, wrong_sizes};

// ---- the group that is formed

// The plan that the job's own start would form: a picture has four lanes, a plane the layout Rgba8.
fn formed_plan(p: Plan) -> Plan
    ensures { result ≡ formed p }
{
    match p.kind {
        Kind::Picture => Plan {
            lanes: PIXEL_LANES as u32,
            ..p
        },
        Kind::Plane => Plan {
            layout: PixelLayout::Rgba8,
            ..p
        },
    }
}

// Fresh jobs for the first `count` plans, as far as the limit.
fn group_of(plans: [Plan; GROUP_LIMIT], count: u32) -> Group
    ensures { result ≡ group_of plans count }
{
    let n = looked_at(count);
    let mut g = Group {
        count: n as u32,
        jobs: [no_job(); GROUP_LIMIT],
    };
    for i in 0..n {
        g.jobs[i] = Job {
            plan: formed_plan(plans[i]),
            accepted: 0,
            taken: 0,
            flag: false,
        };
    }
    g
}

// ---- the tests, each number over all jobs before the next
// Kept as three: each is one call of `any`, and one function that takes the test would say its clause by the closure's, in more lines.

// Number 1 of one of the jobs.
fn some_wrong(g: Group) -> bool
    ensures { result ≡ some (wrong_at g.jobs) (looked g.count) }
{
    g.jobs[..looked_at(g.count)]
        .iter()
        .any(|j| wrong_sizes(j.plan.source, j.plan.crop, j.plan.target))
}

// Number 10 of one of the jobs.
fn some_lanes(g: Group) -> bool
    ensures { result ≡ some (lanes_at g.jobs) (looked g.count) }
{
    g.jobs[..looked_at(g.count)]
        .iter()
        .any(|j| bad_lanes(j.plan.lanes))
}

// Number 2 of one of the jobs.
fn some_beyond(g: Group) -> bool
    ensures { result ≡ some (beyond_at g.jobs) (looked g.count) }
{
    g.jobs[..looked_at(g.count)]
        .iter()
        .any(|j| crop_beyond(j.plan.crop, j.plan.source))
}

// The tests of a start, of the work values lent; where they pass, where the last part of the work values ends.
fn check_group_start(plans: [Plan; GROUP_LIMIT], count: u32, work: usize) -> Result<usize, Refusal>
    ensures number { answer_number result ≡ group_start_number plans count work }
    ensures place { value_or 0 result ≡ place_if (group_start_number plans count work) (total (group_of plans count).jobs (group_of plans count).count) }
{
    let g = group_of(plans, count);
    if some_wrong(g) {
        return Err(Refusal::InvalidDimensions);
    }
    if some_lanes(g) {
        return Err(Refusal::InvalidLanes);
    }
    if some_beyond(g) {
        return Err(Refusal::CropOutOfBounds);
    }
    if jobs_differ(g) {
        return Err(Refusal::InvalidGroup);
    }
    if GROUP_LIMIT < count as usize {
        return Err(Refusal::GroupTooLarge);
    }
    let end = group_need(g);
    if work < end {
        return Err(Refusal::WorkLength);
    }
    Ok(end)
}

// ---- the start

fn clear(work: &mut [u32], n: usize)
    requires { n ≤ length work.old }
    ensures { work.new ≡ replicate n 0 ++ drop n work.old }
{
    work[..n].fill(0);
}

// Fresh jobs, and the parts of the work values that are theirs cleared.
// Rules out: the whole slice cleared, beyond the parts too; the jobs handed back by a start that is turned away; 14 told before 13; a picture with the lane count
// that its plan says.
pub fn start_group(plans: [Plan; GROUP_LIMIT], count: u32, work: &mut [u32]) -> Answer<(), Group>
    ensures number { answer_number result.said ≡ group_start_number plans count (length work.old) }
    ensures group { result.next ≡ group_started plans count (length work.old) }
    ensures work { work.new ≡ group_start_work plans count work.old }
{
    let placed = check_group_start(plans, count, work.len());
    match placed {
        Err(why) => Answer {
            said: Err(why),
            next: group_of(plans, 0),
        },
        Ok(place) => {
            clear(work, place);
            Answer {
                said: Ok(()),
                next: group_of(plans, count),
            }
        }
    }
}
