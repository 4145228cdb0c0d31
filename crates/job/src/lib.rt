// The job (SCOPE, "The job"; the Rust: Rescaler and rescale_plane of geometry.rs): a record by value that every call takes and hands back.
// The caller lends the rows, the work values and the output row. Fields are public: a record that meets the rules counts, whoever filled it.
#![tactic(auto)]

ghost use Rattle.std.specs.Prelude.{◌≡◌, ◌||◌, length};
ghost use Rattle.pixels.specs.Refusals.{answer_number, value_or, flagged_flag};
ghost use Rattle.job.specs.Record.{lawful, ready_of, Rules};
ghost use Rattle.job.specs.Calls.{most_rows, fed, count, offer_number, offer_rows, offer_job, offer_work, take_number, more_taken, row_taken, work_taken, take_job, take_out, take_work};

use job_rules::{Plan, check_offer, check_rules, check_take, row_bytes, row_form};
use pixels::Refusal;
use rows_in::put_source_row;
use rows_out::take_row;

// The record: the plan, source rows accepted, preview rows taken, and whether a taken row had an alpha byte other than 255; a plane's has none.
#[derive(Clone, Copy)]
pub struct Job {
    pub plan: Plan,
    pub accepted: u32,
    pub taken: u32,
    pub flag: bool,
}

// What a call that takes a record says: its answer, and the next record, which is the one passed in where the call was refused.
// Kept beside the Result: "a call takes the record and hands back the next one", by a refusal too (`offer_job`, `take_job`).
#[derive(Clone, Copy)]
pub struct Answer<T, R> {
    pub said: Result<T, Refusal>,
    pub next: R,
}

// ---- rows come in

// The rows lent or those that the source has left, whichever are fewer; n is the number of bytes lent.
// Kept beside that of a group: a function with a `requires` is called within its crate alone.
fn most_rows(j: Job, n: usize) -> u32
    requires { Rules j }
    ensures { result ≡ most_rows j n }
{
    let lent = n / row_bytes(j.plan, j.plan.source.width);
    let left = j.plan.source.height - j.accepted;
    if lent < left as usize {
        return lent as u32;
    }
    left
}

// The rows of an offer that passed its tests, one after another (the Rust: Rescaler::import): "stops at the first row that makes an output row ready, at the last offered or at
// the source's last". Kept: SCOPE names the form, a loop that yields the accepted count by break.
fn accept(j: Job, rows: &[u8], work: &mut [u32]) -> u32
    requires { offer_number j (length rows.now) (length work.old) ≡ 0 }
    ensures rows { result ≡ count j (length rows.now) }
    ensures work { work.new ≡ fed j.plan rows.now j.accepted (count j (length rows.now)) work.old }
{
    let p = j.plan;
    let form = row_form(p);
    let most = most_rows(j, rows.len());
    let stride = row_bytes(p, p.source.width);
    let mut i: u32 = 0;
    let n = loop {
        let at = stride * i as usize;
        let _ = put_source_row(
            form,
            p.crop,
            p.target,
            j.accepted + i,
            &rows[at..at + stride],
            work,
        );
        i += 1;
        if i == most {
            break i;
        }
        let made = p.made(j.accepted + i);
        if (j.taken as u64) < made {
            break i;
        }
    };
    n
}

// ---- a row goes out

// The flag so far, joined by that of the row just made.
fn flag_after(flag: bool, made: Result<bool, Refusal>) -> bool
    ensures { result ≡ (flag || flagged_flag made) }
{
    flag || made.unwrap_or(false)
}

// The row of a take that passed its tests; returns the record's next flag. The layer below does not refuse it.
fn row_out(j: Job, out: &mut [u8], work: &mut [u32]) -> bool
    requires { take_number j (length out.old) (length work.old) ≡ 0 }
    ensures flag { result ≡ (more_taken j (row_taken j work.old)).flag }
    ensures out { out.new ≡ row_taken j work.old }
    ensures work { work.new ≡ work_taken j work.old }
{
    let p = j.plan;
    let form = row_form(p);
    let made = take_row(form, p.crop, p.target, j.accepted, j.taken, out, work);
    flag_after(j.flag, made)
}

// ---- the calls

impl Job {
    // The record rules. Rules out: the rows accepted and the rows taken exchanged; a flag before the first row taken.
    pub fn check(self) -> bool
        ensures { result ≡ lawful self }
    {
        check_rules(self.plan, self.accepted, self.taken, self.flag)
    }

    // The output rows that are ready; none of a record that breaks the rules.
    // Rules out: the rows accepted taken off in place of the rows taken; a row ready of a record that breaks the rules.
    pub fn ready(self) -> u32
        ensures { result ≡ ready_of self }
    {
        if !self.check() {
            return 0;
        }
        let p = self.plan;
        let made = p.made(self.accepted);
        (made - self.taken as u64) as u32
    }

    // Offers one or more whole source rows; returns how many were accepted.
    // Rules out: an offer that goes on past the first row that makes an output row ready; a count that was not fed; rows fed that the record does not count.
    pub fn offer(mut self, rows: &[u8], work: &mut [u32]) -> Answer<u32, Job>
        ensures number { answer_number result.said ≡ offer_number self (length rows.now) (length work.old) }
        ensures rows { value_or 0 result.said ≡ offer_rows self (length rows.now) (length work.old) }
        ensures job { result.next ≡ offer_job self (length rows.now) (length work.old) }
        ensures work { work.new ≡ offer_work self rows.now work.old }
    {
        let said = check_offer(
            self.plan,
            self.accepted,
            self.taken,
            self.flag,
            rows.len(),
            work.len(),
        );
        match said {
            Err(why) => Answer {
                said: Err(why),
                next: self,
            },
            Ok(()) => {
                let n = accept(self, rows, work);
                self.accepted += n;
                Answer {
                    said: Ok(n),
                    next: self,
                }
            }
        }
    }

    // Takes the next output row; its alpha flag joins the record's.
    // Rules out: a row skipped; a take that advances and writes nothing; the flag of the row just taken dropped.
    pub fn take(mut self, out: &mut [u8], work: &mut [u32]) -> Answer<(), Job>
        ensures number { answer_number result.said ≡ take_number self (length out.old) (length work.old) }
        ensures job { result.next ≡ take_job self (length out.old) work.old }
        ensures out { out.new ≡ take_out self out.old work.old }
        ensures work { work.new ≡ take_work self (length out.old) work.old }
    {
        let said = check_take(
            self.plan,
            self.accepted,
            self.taken,
            self.flag,
            out.len(),
            work.len(),
        );
        match said {
            Err(why) => Answer {
                said: Err(why),
                next: self,
            },
            Ok(()) => {
                self.flag = row_out(self, out, work);
                self.taken += 1;
                Answer {
                    said: Ok(()),
                    next: self,
                }
            }
        }
    }
}
