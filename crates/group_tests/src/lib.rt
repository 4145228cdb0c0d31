// The tests of a group's offer and take (SCOPE, "Groups" and "Why a call is turned away"), each number over all its jobs before the next; and the work values that
// its jobs need.
#![tactic(auto)]

ghost use Rattle.std.specs.Prelude.{◌≡◌, cond, true, ◌≤◌};
ghost use Rattle.pixels.specs.Refusals.{answer_number, value_or};
ghost use Rattle.group_rules.specs.Group.{total, group_lawful, looked};
ghost use Rattle.group_rules.specs.Tests.{some_ready, group_offer_number, group_take_number};
ghost use Rattle.group_tests.specs.Placed.{place_if};

use group_rules::{Group, check_group, looked_at};
use job_rules::row_bytes;
use pixels::Refusal;

// ---- the work values

// Where the part of job n starts: what the first n jobs need together.
fn part_start(g: Group, n: usize) -> usize
    requires { (group_lawful g ≡ true) × (n ≤ g.count) }
    ensures { result ≡ total g.jobs n }
{
    let mut at = 0;
    for i in 0..n {
        let j = g.jobs[i];
        at += 2 * row_bytes(j.plan, j.plan.target.width);
    }
    at
}

// The work values that all jobs need; 0 of a group that breaks the rules. Rules out: one half for each job; a need of a group that breaks them.
pub fn group_need(g: Group) -> usize
    ensures { result ≡ cond (group_lawful g) (total g.jobs g.count) 0 }
{
    if !check_group(g) {
        return 0;
    }
    part_start(g, g.count as usize)
}

// ---- rows ready

// A job has a row ready once k rows are accepted. Rules out: a row ready once all are taken; the heights exchanged.
pub fn some_ready(g: Group, k: u32) -> bool
    ensures { result ≡ some_ready g.jobs (looked g.count) k }
{
    g.jobs[..looked_at(g.count)]
        .iter()
        .any(|j| (j.taken as u64) < j.plan.made(k))
}

// ---- the tests of each call, in their order

// Those of an offer, of the bytes lent and the work values. Rules out: 8 told once as many rows as the crop has are accepted;
// 7 told by what the rows taken would make.
pub fn check_group_offer(g: Group, bytes: usize, work: usize) -> Result<(), Refusal>
    ensures { answer_number result ≡ group_offer_number g bytes work }
{
    if !check_group(g) {
        return Err(Refusal::InvalidRecord);
    }
    let first = g.jobs[0];
    if bytes == 0 {
        return Err(Refusal::PixelBufferMismatch);
    }
    if bytes % row_bytes(first.plan, first.plan.source.width) != 0 {
        return Err(Refusal::PixelBufferMismatch);
    }
    if work < part_start(g, g.count as usize) {
        return Err(Refusal::WorkLength);
    }
    if some_ready(g, first.accepted) {
        return Err(Refusal::RowReady);
    }
    if first.plan.source.height <= first.accepted {
        return Err(Refusal::AllAccepted);
    }
    Ok(())
}

// Those of a take, of the job named, the bytes of output and the work values; where they pass, where that job's part starts.
// Rules out: 6 told where the group lacks the job; the part of the first job, whichever is named.
pub fn check_group_take(g: Group, job: u32, bytes: usize, work: usize) -> Result<usize, Refusal>
    ensures number { answer_number result ≡ group_take_number g job bytes work }
    ensures place { value_or 0 result ≡ place_if (group_take_number g job bytes work) (total g.jobs job) }
{
    if !check_group(g) {
        return Err(Refusal::InvalidRecord);
    }
    if g.count <= job {
        return Err(Refusal::InvalidGroup);
    }
    let i = job as usize;
    let j = g.jobs[i];
    if bytes != row_bytes(j.plan, j.plan.target.width) {
        return Err(Refusal::OutputLength);
    }
    if work < part_start(g, g.count as usize) {
        return Err(Refusal::WorkLength);
    }
    if j.plan.made(j.accepted) <= j.taken as u64 {
        return Err(Refusal::NoneReady);
    }
    Ok(part_start(g, i))
}
