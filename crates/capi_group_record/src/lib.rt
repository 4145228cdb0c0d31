// The record of a group and the plans of its jobs as the library for C has them, word by word. Every public function answers for all arguments.
#![tactic(auto)]

ghost use Rattle.std.specs.Prelude.{◌≡◌, ◌≤◌, length};
ghost use Rattle.capi_group_record.specs.GroupRecord.{plan_length, told_plan, told_plans, told_group, stored_group};

use capi_record::{RECORD_WORDS, read_job, store_job};
use group_rules::{GROUP_LIMIT, Group, looked_at, no_job};
use job::Job;
use job_rules::Plan;

// How many words a plan takes: those of a record without rows accepted, rows taken and the flag.
pub const PLAN_WORDS: usize = 11;

// ---- the plans of a start

// The fresh record of the plan that words tell.
fn read_plan(words: &[u32]) -> Option<Job>
    requires { plan_length ≤ length words.now }
    ensures { result ≡ told_plan words.now }
{
    let fresh = [
        words[0], words[1], words[2], words[3], words[4], words[5], words[6], words[7], words[8],
        0, 0, 0, words[9], words[10],
    ];
    read_job(&fresh)
}

// The plans that words tell, where there are enough of them and so many words lent have room for the group's record; a start looks at the first of them only, up
// to the limit.
// Rules out: kind and lanes read from each other's words; one word more than they take asked for the group's record.
pub fn read_plans(words: &[u32], count: u32, lent: usize) -> Option<[Plan; GROUP_LIMIT]>
    ensures { result ≡ told_plans words.now count lent }
{
    let n = looked_at(count);
    if words.len() < PLAN_WORDS * n {
        return None;
    }
    if lent < 1 + RECORD_WORDS * n {
        return None;
    }
    let mut plans = [no_job().plan; GROUP_LIMIT];
    for i in 0..n {
        let at = PLAN_WORDS * i;
        let Some(job) = read_plan(&words[at..at + PLAN_WORDS]) else {
            return None;
        };
        plans[i] = job.plan;
    }
    Some(plans)
}

// ---- the group's record

// The group that words tell; whether it meets the rules is for the group to say. Beyond the count stands the record of zeros.
// Rules out: as many jobs as the limit taken for too many; a count that is not read.
pub fn read_group(words: &[u32]) -> Option<Group>
    ensures { result ≡ told_group words.now }
{
    if words.len() < 1 {
        return None;
    }
    let count = words[0];
    let n = count as usize;
    if GROUP_LIMIT < n {
        return None;
    }
    if words.len() < 1 + RECORD_WORDS * n {
        return None;
    }
    let mut group = Group {
        count,
        jobs: [no_job(); GROUP_LIMIT],
    };
    for i in 0..n {
        let at = 1 + RECORD_WORDS * i;
        let Some(job) = read_job(&words[at..at + RECORD_WORDS]) else {
            return None;
        };
        group.jobs[i] = job;
    }
    Some(group)
}

// Stores the words of a group; fewer words than it takes stay as they were, and so they do for more jobs than a group has.
// Rules out: the first job stored in place of each; a count that is not stored.
pub fn store_group(group: Group, words: &mut [u32])
    ensures { words.new ≡ stored_group group words.old }
{
    let n = group.count as usize;
    if n > GROUP_LIMIT {
        return;
    }
    if words.len() < 1 + RECORD_WORDS * n {
        return;
    }
    words[0] = group.count;
    for i in 0..n {
        let at = 1 + RECORD_WORDS * i;
        let job = group.jobs[i];
        store_job(job, &mut words[at..at + RECORD_WORDS]);
    }
}
