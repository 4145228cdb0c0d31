// An offer of source rows to all jobs of a group (SCOPE, "Groups"). specs/Calls.antt has its take, too, which crates/group_take makes.
#![tactic(auto)]

ghost use Rattle.std.specs.Prelude.{◌≡◌, true, ◌+◌, ◌≤◌, length};
ghost use Rattle.pixels.specs.Refusals.{answer_number, value_or};
ghost use Rattle.job.specs.Calls.{row_accepted, fed, more_accepted};
ghost use Rattle.group_parts.specs.Parts.{each_part};
ghost use Rattle.group_rules.specs.Group.{job_at, plan_at, each_job, needs, group_lawful};
ghost use Rattle.group_rules.specs.Tests.{group_offer_number};
ghost use Rattle.group.specs.Inner.{RowForAll};
ghost use Rattle.group.specs.Calls.{most_rows, group_count, with_jobs, group_offer_rows, group_offered, group_offer_work};

use group_rules::Group;
use group_tests::{check_group_offer, some_ready};
use job::Answer;
use job_rules::{row_bytes, row_form};
use rows_in::put_source_row;

// ---- how many rows come in

// The rows lent or those that the source has left, whichever are fewer; n is the number of bytes lent.
// Kept beside job's own: that one asks for the record rules, and no function that another crate calls has a `requires`.
fn most_rows(g: Group, n: usize) -> u32
    requires { group_lawful g ≡ true }
    ensures { result ≡ most_rows g n }
{
    let j = g.jobs[0];
    let lent = n / row_bytes(j.plan, j.plan.source.width);
    let left = j.plan.source.height - j.accepted;
    lent.min(left as usize) as u32
}

// The rows of an offer that passed its tests: one more as long as no job has one ready. n is the number of bytes lent, w that of work values.
fn count_rows(g: Group, n: usize, w: usize) -> u32
    requires { group_offer_number g n w ≡ 0 }
    ensures { result ≡ group_count g n }
{
    let most = most_rows(g, n);
    let j = g.jobs[0];
    for c in 1..most {
        if some_ready(g, j.accepted + c) {
            return c;
        }
    }
    most
}

// ---- rows come in

// Source row s for every job, each on its own part of the work values, while the row is at hand.
fn feed_row(g: Group, s: u32, row: &[u8], work: &mut [u32])
    requires { RowForAll g row.now work.old }
    ensures { work.new ≡ each_part (needs g.jobs) (λ i. row_accepted (plan_at g.jobs i) row.now s) g.count work.old }
{
    let mut at = 0;
    for i in 0..g.count as usize {
        let p = g.jobs[i].plan;
        let end = at + 2 * row_bytes(p, p.target.width);
        let _ = put_source_row(row_form(p), p.crop, p.target, s, row, &mut work[at..end]);
        at = end;
    }
}

// The first c rows lent, one after another.
fn feed_rows(g: Group, c: u32, rows: &[u8], work: &mut [u32])
    requires { (group_offer_number g (length rows.now) (length work.old) ≡ 0) × (c ≡ group_count g (length rows.now)) }
    ensures { work.new ≡ each_part (needs g.jobs) (λ i. fed (plan_at g.jobs i) rows.now (job_at g.jobs 0).accepted c) g.count work.old }
{
    let j = g.jobs[0];
    let stride = row_bytes(j.plan, j.plan.source.width);
    for r in 0..c {
        let at = stride * r as usize;
        feed_row(g, j.accepted + r, &rows[at..at + stride], work);
    }
}

// All records with c rows more.
fn all_more(mut g: Group, c: u32) -> Group
    requires { (group_lawful g ≡ true) × ((job_at g.jobs 0).accepted + c ≤ 16384) }
    ensures { result ≡ with_jobs g (each_job (λ j. more_accepted j c) g.count g.jobs) }
{
    for i in 0..g.count as usize {
        g.jobs[i].accepted += c;
    }
    g
}

// ---- the call

// Offers one or more whole source rows to all jobs; returns how many were accepted.
// Rules out: rows counted by the first job alone; an offer that goes on past the first row that makes a row ready; parts cut one value too late.
pub fn offer_group(g: Group, rows: &[u8], work: &mut [u32]) -> Answer<u32, Group>
    ensures number { answer_number result.said ≡ group_offer_number g (length rows.now) (length work.old) }
    ensures rows { value_or 0 result.said ≡ group_offer_rows g (length rows.now) (length work.old) }
    ensures group { result.next ≡ group_offered g (length rows.now) (length work.old) }
    ensures work { work.new ≡ group_offer_work g rows.now work.old }
{
    let said = check_group_offer(g, rows.len(), work.len());
    match said {
        Err(why) => Answer {
            said: Err(why),
            next: g,
        },
        Ok(()) => {
            let c = count_rows(g, rows.len(), work.len());
            feed_rows(g, c, rows, work);
            Answer {
                said: Ok(c),
                next: all_more(g, c),
            }
        }
    }
}
