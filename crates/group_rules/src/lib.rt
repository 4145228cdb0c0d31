// Groups (SCOPE, "Groups"): several jobs over one source, which one lent work slice is cut among in the order given. The group's record and the rules that it is
// held to. Fields are public: a group that meets the rules counts, whoever filled it.
#![tactic(auto)]

ghost use Rattle.std.specs.Prelude.{◌≡◌};
ghost use Rattle.group_rules.specs.Group.{spare, alike, differing, looked, every, group_lawful};
ghost use Rattle.group_rules.specs.Inner.{in_step};

use job::Job;
use job_rules::{Kind, Plan};
use pixels::{Dimensions, Rect};
use pixels_layout::PixelLayout;

// The most jobs of a group.
pub const GROUP_LIMIT: usize = 6;

// The record: how many jobs, and theirs. What stands beyond the count says nothing.
// Kept: the count beside the array, since a record of up to six jobs has fixed memory (no heap).
#[derive(Clone, Copy)]
pub struct Group {
    pub count: u32,
    pub jobs: [Job; GROUP_LIMIT],
}

// The record of zeros, which stands where no job is. Rules out: a job of one lane; a plane.
// Kept: written out, since nothing else asks for a default of these five types.
pub fn no_job() -> Job
    ensures { result ≡ spare }
{
    Job {
        plan: Plan {
            source: Dimensions {
                width: 0,
                height: 0,
            },
            layout: PixelLayout::Rgba8,
            crop: Rect {
                x: 0,
                y: 0,
                width: 0,
                height: 0,
            },
            target: Dimensions {
                width: 0,
                height: 0,
            },
            kind: Kind::Picture,
            lanes: 0,
        },
        accepted: 0,
        taken: 0,
        flag: false,
    }
}

// How many of `count` jobs are looked at: none beyond the limit. Rules out: one beyond it looked at; the last within it passed over.
pub fn looked_at(count: u32) -> usize
    ensures { result ≡ looked count }
{
    (count as usize).min(GROUP_LIMIT)
}

// ---- jobs over one source

// Source sizes, layouts, kinds and lane counts are the same.
fn plans_alike(p: Plan, q: Plan) -> bool
    ensures { result ≡ alike p q }
{
    q.source == p.source && q.layout == p.layout && q.kind == p.kind && q.lanes == p.lanes
}

// Number 13 of a start: no jobs, or jobs that do not go over one source. Rules out: an empty group let pass; jobs of other layouts.
pub fn jobs_differ(g: Group) -> bool
    ensures { result ≡ differing g.jobs (looked g.count) }
{
    let n = looked_at(g.count);
    if n == 0 {
        return true;
    }
    let first = g.jobs[0];
    g.jobs[..n].iter().any(|j| !plans_alike(first.plan, j.plan))
}

// ---- the record rules

// Each job meets its own rules, and all have accepted equally many rows.
fn jobs_in_step(g: Group) -> bool
    ensures { result ≡ every (in_step g.jobs) (looked g.count) }
{
    let n = looked_at(g.count);
    let first = g.jobs[0];
    g.jobs[..n]
        .iter()
        .all(|j| j.check() && j.accepted == first.accepted)
}

// The rules of a group. Rules out: jobs that differ in rows accepted; the first job's own rules tested, no other's.
pub fn check_group(g: Group) -> bool
    ensures { result ≡ group_lawful g }
{
    if GROUP_LIMIT < g.count as usize {
        return false;
    }
    if jobs_differ(g) {
        return false;
    }
    jobs_in_step(g)
}
