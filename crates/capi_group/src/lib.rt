// The library for C (include/jonquilsaw.h), the calls of a group: numbers and slices only. In C a slice is a pointer, then a count of elements.
// Every function answers for all arguments: 0 where the call was accepted, SCOPE's number where it was refused, and BOUNDARY for what only
// this boundary can be asked, tested first.
#![tactic(auto)]

ghost use Rattle.std.specs.Prelude.{◌≡◌, length};
ghost use Rattle.capi_group.specs.GroupCalls.{number_of_start_group, work_after_start_group, record_after_start_group, number_of_offer_group, record_after_offer_group, work_after_offer_group, accepted_after_offer_group, number_of_take_group, record_after_take_group, out_after_take_group, work_after_take_group};

use capi_group_record::{read_group, read_plans, store_group};
use capi_words::{BOUNDARY, store};
use group::offer_group;
use group_start::start_group;
use group_take::take_group;
use pixels::Refusal;

// A fresh group of the plans given: its record in lent words, and the work rows of all its jobs cleared.
// Rules out: one job started however many are asked for; the work values measured in place of the record's words.
#[unsafe(no_mangle)]
pub extern "C" fn jonquilsaw_start_group(
    plans: &[u32],
    count: u32,
    work: &mut [u32],
    record: &mut [u32],
) -> u32
    ensures number { result ≡ number_of_start_group plans.now count (length work.old) (length «record».old) }
    ensures work { work.new ≡ work_after_start_group plans.now count work.old (length «record».old) }
    ensures record { «record».new ≡ record_after_start_group plans.now count (length work.old) «record».old }
{
    let Some(given) = read_plans(plans, count, record.len()) else {
        return BOUNDARY;
    };
    let started = start_group(given, count, work);
    match started.said {
        Err(why) => why.number(),
        Ok(()) => {
            store_group(started.next, record);
            0
        }
    }
}

// Offers source rows to all jobs of the group that the record's words tell; how many were accepted in one lent word.
// Rules out: two words asked for the rows accepted; the group passed in stored in place of the next one.
#[unsafe(no_mangle)]
pub extern "C" fn jonquilsaw_offer_group(
    record: &mut [u32],
    rows: &[u8],
    work: &mut [u32],
    accepted: &mut [u32],
) -> u32
    ensures number { result ≡ number_of_offer_group «record».old (length rows.now) (length work.old) (length accepted.old) }
    ensures record { «record».new ≡ record_after_offer_group «record».old (length rows.now) (length work.old) (length accepted.old) }
    ensures work { work.new ≡ work_after_offer_group «record».old rows.now work.old (length accepted.old) }
    ensures accepted { accepted.new ≡ accepted_after_offer_group «record».old (length rows.now) (length work.old) accepted.old }
{
    if accepted.len() < 1 {
        return BOUNDARY;
    }
    let Some(group) = read_group(record) else {
        return Refusal::InvalidRecord.number();
    };
    let offered = offer_group(group, rows, work);
    match offered.said {
        Err(why) => why.number(),
        Ok(n) => {
            store_group(offered.next, record);
            store(&[n], accepted);
            0
        }
    }
}

// Takes the next preview row of one job, counted from 0, of the group that the record's words tell.
// Rules out: the first job's row in place of the named one's; a row written and the record's words left.
#[unsafe(no_mangle)]
pub extern "C" fn jonquilsaw_take_group(
    record: &mut [u32],
    job: u32,
    out: &mut [u8],
    work: &mut [u32],
) -> u32
    ensures number { result ≡ number_of_take_group «record».old job (length out.old) (length work.old) }
    ensures record { «record».new ≡ record_after_take_group «record».old job (length out.old) work.old }
    ensures out { out.new ≡ out_after_take_group «record».old job out.old work.old }
    ensures work { work.new ≡ work_after_take_group «record».old job (length out.old) work.old }
{
    let Some(group) = read_group(record) else {
        return Refusal::InvalidRecord.number();
    };
    let taken = take_group(group, job, out, work);
    match taken.said {
        Err(why) => why.number(),
        Ok(()) => {
            store_group(taken.next, record);
            0
        }
    }
}
