// A take of one job's next row from a group, and the rows ready of it (SCOPE, "Groups").
#![tactic(auto)]

ghost use Rattle.std.specs.Prelude.{◌≡◌, length, set};
ghost use Rattle.pixels.specs.Refusals.{answer_number};
ghost use Rattle.job.specs.Calls as job;
ghost use Rattle.group_parts.specs.Parts.{part_at, put_at};
ghost use Rattle.group_rules.specs.Group.{job_at, needs, total};
ghost use Rattle.group_rules.specs.Tests.{group_take_number};
ghost use Rattle.group.specs.Calls.{with_jobs, group_ready, group_taken, group_take_out, group_take_work};

use group_rules::{Group, check_group};
use group_tests::check_group_take;
use job::Answer;
use job_rules::row_bytes;

// ---- a row goes out

// Job k's own take, on its part of the work values, which starts at `at`.
fn take_part(mut g: Group, k: usize, at: usize, out: &mut [u8], work: &mut [u32]) -> Group
    requires { (group_take_number g k (length out.old) (length work.old) ≡ 0) × (at ≡ total g.jobs k) }
    ensures group { result ≡ with_jobs g (set g.jobs k (job.take_job (job_at g.jobs k) (length out.old) (part_at (needs g.jobs) k work.old))) }
    ensures out { out.new ≡ job.take_out (job_at g.jobs k) out.old (part_at (needs g.jobs) k work.old) }
    ensures work { work.new ≡ put_at (total g.jobs k) (needs g.jobs k) work.old (job.take_work (job_at g.jobs k) (length out.old) (part_at (needs g.jobs) k work.old)) }
{
    let j = g.jobs[k];
    let end = at + 2 * row_bytes(j.plan, j.plan.target.width);
    let taken = j.take(out, &mut work[at..end]);
    g.jobs[k] = taken.next;
    g
}

// ---- the calls

// The rows ready of a job, counted from 0; none of a group that breaks the rules, nor of a job that it lacks.
// Rules out: a row ready of a job beyond the count; the rows taken in place of the rows ready.
pub fn group_ready(g: Group, job: u32) -> u32
    ensures { result ≡ group_ready g job }
{
    if !check_group(g) {
        return 0;
    }
    if g.count <= job {
        return 0;
    }
    let j = g.jobs[job as usize];
    j.ready()
}

// Takes the next output row of a job, counted from 0.
// Rules out: the record of the named job not advanced; a take on the first job's part.
pub fn take_group(g: Group, job: u32, out: &mut [u8], work: &mut [u32]) -> Answer<(), Group>
    ensures number { answer_number result.said ≡ group_take_number g job (length out.old) (length work.old) }
    ensures group { result.next ≡ group_taken g job (length out.old) work.old }
    ensures out { out.new ≡ group_take_out g job out.old work.old }
    ensures work { work.new ≡ group_take_work g job (length out.old) work.old }
{
    let placed = check_group_take(g, job, out.len(), work.len());
    match placed {
        Err(why) => Answer {
            said: Err(why),
            next: g,
        },
        Ok(place) => Answer {
            said: Ok(()),
            next: take_part(g, job as usize, place, out, work),
        },
    }
}
