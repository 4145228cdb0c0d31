// The library for C (include/jonquilsaw.h), the calls of a job: numbers and slices only. In C a slice is a pointer, then a count of elements.
// Every function answers for all arguments: 0 where the call was accepted, SCOPE's number where it was refused, and BOUNDARY for what only
// this boundary can be asked, tested first.
#![tactic(auto)]

ghost use Rattle.std.specs.Prelude.{◌≡◌, length};
ghost use Rattle.capi_jobs.specs.Jobs.{number_of_start, work_after_start, record_after_start, number_of_offer, record_after_offer, work_after_offer, count_after_offer, number_of_take, record_after_take, out_after_take, work_after_take};

use capi_record::{RECORD_WORDS, read_job, store_job};
use capi_words::{BOUNDARY, layout_of, misused, store};
use job_start::start;
use pixels::{Dimensions, Rect, Refusal};

// A fresh job: its record in lent words, and the work rows cleared.
// Rules out: source and target exchanged; thirteen words enough for the record.
#[unsafe(no_mangle)]
pub extern "C" fn jonquilsaw_start(
    source_width: u32,
    source_height: u32,
    layout: u32,
    crop_x: u32,
    crop_y: u32,
    crop_width: u32,
    crop_height: u32,
    target_width: u32,
    target_height: u32,
    work: &mut [u32],
    record: &mut [u32],
) -> u32
    ensures number { result ≡ number_of_start source_width source_height layout crop_x crop_y crop_width crop_height target_width target_height (length work.old) (length «record».old) }
    ensures work { work.new ≡ work_after_start source_width source_height layout crop_x crop_y crop_width crop_height target_width target_height work.old (length «record».old) }
    ensures record { «record».new ≡ record_after_start source_width source_height layout crop_x crop_y crop_width crop_height target_width target_height (length work.old) «record».old }
{
    if misused(layout, record.len(), RECORD_WORDS) {
        return BOUNDARY;
    }
    let source = Dimensions {
        width: source_width,
        height: source_height,
    };
    let crop = Rect {
        x: crop_x,
        y: crop_y,
        width: crop_width,
        height: crop_height,
    };
    let target = Dimensions {
        width: target_width,
        height: target_height,
    };
    let answer = start(source, layout_of(layout), crop, target, work);
    match answer {
        Err(why) => why.number(),
        Ok(job) => {
            store_job(job, record);
            0
        }
    }
}

// Offers source rows to the job that the record's words tell; how many were accepted in one lent word.
// Rules out: a count of 0 stored always; two words asked for the count.
#[unsafe(no_mangle)]
pub extern "C" fn jonquilsaw_offer(
    record: &mut [u32],
    rows: &[u8],
    work: &mut [u32],
    count: &mut [u32],
) -> u32
    ensures number { result ≡ number_of_offer «record».old (length rows.now) (length work.old) (length count.old) }
    ensures record { «record».new ≡ record_after_offer «record».old (length rows.now) (length work.old) (length count.old) }
    ensures work { work.new ≡ work_after_offer «record».old rows.now work.old (length count.old) }
    ensures count { count.new ≡ count_after_offer «record».old (length rows.now) (length work.old) count.old }
{
    if count.len() < 1 {
        return BOUNDARY;
    }
    let Some(job) = read_job(record) else {
        return Refusal::InvalidRecord.number();
    };
    let offered = job.offer(rows, work);
    match offered.said {
        Err(why) => why.number(),
        Ok(n) => {
            store_job(offered.next, record);
            store(&[n], count);
            0
        }
    }
}

// Takes the next preview row of the job that the record's words tell.
// Rules out: a row written and the record's words left; every refusal told as 9.
#[unsafe(no_mangle)]
pub extern "C" fn jonquilsaw_take(record: &mut [u32], out: &mut [u8], work: &mut [u32]) -> u32
    ensures number { result ≡ number_of_take «record».old (length out.old) (length work.old) }
    ensures record { «record».new ≡ record_after_take «record».old (length out.old) work.old }
    ensures out { out.new ≡ out_after_take «record».old out.old work.old }
    ensures work { work.new ≡ work_after_take «record».old (length out.old) work.old }
{
    let Some(job) = read_job(record) else {
        return Refusal::InvalidRecord.number();
    };
    let taken = job.take(out, work);
    match taken.said {
        Err(refusal) => refusal.number(),
        Ok(()) => {
            store_job(taken.next, record);
            0
        }
    }
}
