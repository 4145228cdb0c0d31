// Bands summed from the bottom (SCOPE, "Bands"; request 9): a call that is lent the rows of the next band, top row first, and adds them from last to first.
// Record and work rows are those that offering them in order leaves.
#![tactic(auto)]

ghost use Rattle.std.specs.Prelude.{◌≡◌, not, ◌||◌, eqb, length};
ghost use Rattle.pixels.specs.Refusals.{answer_number, value_or};
ghost use Rattle.job.specs.Record.{Rules};
ghost use Rattle.job.specs.Inner.{RowAsks};
ghost use Rattle.job.specs.Calls.{offer_work};
ghost use Rattle.job_band.specs.Bands.{band_rows, next_band, band_number, band_accepted, band_job, band_work};
ghost use Rattle.job_band.specs.Inner.{second_put};

use job::{Answer, Job};
use job_rules::{Plan, check_offer, row_bytes, row_form};
use pixels::{Dimensions, Rect, Refusal};
use rows_in::put_source_row;
use rows_schedule::needed_rows;

// ---- how many rows the next band has

// Of a record that meets the rules: the crop rows before the one with which the next output row is made, less those used.
fn band_of(j: Job) -> u32
    requires { Rules j }
    ensures { result ≡ band_rows j.plan j.accepted }
{
    let p = j.plan;
    if j.accepted < p.crop.y {
        return 0;
    }
    if p.crop.height < p.target.height {
        return 0;
    }
    let made = p.made(j.accepted);
    if p.target.height as u64 <= made {
        return 0;
    }
    let needed = needed_rows(p.crop.height, p.target.height, made as u32);
    (needed - 1) as u32 - (j.accepted - p.crop.y)
}

// The rows that the next band has; 0 where there is none, and of a record that breaks the rules.
// Rules out: the row with which R rises counted in; rows of a record that breaks the rules.
pub fn band_rows(j: Job) -> u32
    ensures { result ≡ next_band j }
{
    if !j.check() {
        return 0;
    }
    band_of(j)
}

// ---- the tests, in their order: 6, 17, then those that an offer has behind its 3

// A stretch of so many bytes where the band has `band`: empty, or another.
fn wrong_stretch(bytes: usize, band: usize) -> bool
    ensures { result ≡ (eqb bytes 0 || not (eqb bytes band)) }
{
    if bytes == 0 {
        return true;
    }
    bytes != band
}

fn check_band(j: Job, bytes: usize, work: usize) -> Result<(), Refusal>
    ensures { answer_number result ≡ band_number j bytes work }
{
    let lawful = j.check();
    if !lawful {
        return Err(Refusal::InvalidRecord);
    }
    let p = j.plan;
    let band = row_bytes(p, p.source.width) * band_of(j) as usize;
    if wrong_stretch(bytes, band) {
        return Err(Refusal::InvalidBand);
    }
    check_offer(p, j.accepted, j.taken, j.flag, bytes, work)
}

// ---- rows come in

// A source row into the second half, not added: as the first of two rows that one crop row grows to comes in.
fn put_second(p: Plan, row: &[u8], work: &mut [u32])
    requires { RowAsks p row.now work.old }
    ensures { work.new ≡ second_put p row.now work.old }
{
    let form = row_form(p);
    let crop = Rect {
        x: p.crop.x,
        y: 0,
        width: p.crop.width,
        height: 1,
    };
    let target = Dimensions {
        width: p.target.width,
        height: 2,
    };
    let _ = put_source_row(form, crop, target, 0, row, work);
}

// The rows of a band that passed its tests, from last to first; then the last once more into the second half, where an offer leaves it.
fn add_band(j: Job, rows: &[u8], work: &mut [u32]) -> u32
    requires { band_number j (length rows.now) (length work.old) ≡ 0 }
    ensures rows { result ≡ band_rows j.plan j.accepted }
    ensures work { work.new ≡ offer_work j rows.now work.old }
{
    let p = j.plan;
    let form = row_form(p);
    let stride = row_bytes(p, p.source.width);
    let n = band_of(j);
    for i in (0..n).rev() {
        let at = stride * i as usize;
        let _ = put_source_row(
            form,
            p.crop,
            p.target,
            j.accepted + i,
            &rows[at..at + stride],
            work,
        );
    }
    if n == 1 {
        return n;
    }
    let last = stride * (n - 1) as usize;
    put_second(p, &rows[last..last + stride], work);
    n
}

// ---- the call

// Offers the rows of the next band, top row first; they are added from last to first.
// Rules out: 17 told of a record that breaks the rules; an empty stretch let pass; the second half left with the band's first row; rows added that the record does not count.
pub fn offer_band(j: Job, rows: &[u8], work: &mut [u32]) -> Answer<u32, Job>
    ensures number { answer_number result.said ≡ band_number j (length rows.now) (length work.old) }
    ensures rows { value_or 0 result.said ≡ band_accepted j (length rows.now) (length work.old) }
    ensures job { result.next ≡ band_job j (length rows.now) (length work.old) }
    ensures work { work.new ≡ band_work j rows.now work.old }
{
    let said = check_band(j, rows.len(), work.len());
    match said {
        Err(why) => Answer {
            said: Err(why),
            next: j,
        },
        Ok(()) => {
            let n = add_band(j, rows, work);
            let mut next = j;
            next.accepted += n;
            Answer { said: Ok(n), next }
        }
    }
}
