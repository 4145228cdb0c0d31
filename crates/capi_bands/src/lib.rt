// The library for C (include/jonquilsaw.h), the calls of a band: numbers and slices only, as capi_jobs has them.
#![tactic(auto)]

ghost use Rattle.std.specs.Prelude.{◌≡◌, length};
ghost use Rattle.capi_bands.specs.Bands.{number_of_count, count_after_count, number_of_band, record_after_band, work_after_band, count_after_band};

use capi_record::{read_job, store_job};
use capi_words::{BOUNDARY, store};
use job_band::{band_rows, offer_band};
use pixels::Refusal;

// How many rows the next band of the job has that the record's words tell, in one lent word.
// Rules out: a count of 0 stored always; a record that breaks the rules counted.
#[unsafe(no_mangle)]
pub extern "C" fn jonquilsaw_band_count(record: &[u32], count: &mut [u32]) -> u32
    ensures number { result ≡ number_of_count «record».now (length count.old) }
    ensures count { count.new ≡ count_after_count «record».now count.old }
{
    if count.len() < 1 {
        return BOUNDARY;
    }
    let Some(job) = read_job(record) else {
        return Refusal::InvalidRecord.number();
    };
    if !job.check() {
        return Refusal::InvalidRecord.number();
    }
    store(&[band_rows(job)], count);
    0
}

// Offers the rows of the next band to the job that the record's words tell; how many were accepted in one lent word.
// Rules out: two words asked for the count; the record passed in stored.
#[unsafe(no_mangle)]
pub extern "C" fn jonquilsaw_band_offer(
    record: &mut [u32],
    rows: &[u8],
    work: &mut [u32],
    count: &mut [u32],
) -> u32
    ensures number { result ≡ number_of_band «record».old (length rows.now) (length work.old) (length count.old) }
    ensures record { «record».new ≡ record_after_band «record».old (length rows.now) (length work.old) (length count.old) }
    ensures work { work.new ≡ work_after_band «record».old rows.now work.old (length count.old) }
    ensures count { count.new ≡ count_after_band «record».old (length rows.now) (length work.old) count.old }
{
    if count.len() < 1 {
        return BOUNDARY;
    }
    let Some(job) = read_job(record) else {
        return Refusal::InvalidRecord.number();
    };
    let answer = offer_band(job, rows, work);
    match answer.said {
        Err(why) => why.number(),
        Ok(n) => {
            store_job(answer.next, record);
            store(&[n], count);
            0
        }
    }
}
