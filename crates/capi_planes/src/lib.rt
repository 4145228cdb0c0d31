// The library for C (include/jonquilsaw.h), the starts of planes: numbers and slices only, as in capi_jobs, whose calls serve them too.
#![tactic(auto)]

ghost use Rattle.std.specs.Prelude.{◌≡◌, length};
ghost use Rattle.capi_planes.specs.Planes.{number_of_plane, work_after_plane, record_after_plane, number_of_planes, luma_work_after_planes, cb_work_after_planes, cr_work_after_planes, luma_after_planes, cb_after_planes, cr_after_planes};

use capi_record::{RECORD_WORDS, store_job};
use capi_words::BOUNDARY;
use job_planes::start_planes;
use job_start::start_plane;
use pixels::{Dimensions, Rect};

// A fresh job of a plane of so many lanes: its record in lent words, and the work rows cleared.
// Rules out: source and target exchanged; thirteen words enough for the record.
#[unsafe(no_mangle)]
pub extern "C" fn jonquilsaw_start_plane(
    source_width: u32,
    source_height: u32,
    lanes: u32,
    crop_x: u32,
    crop_y: u32,
    crop_width: u32,
    crop_height: u32,
    target_width: u32,
    target_height: u32,
    work: &mut [u32],
    record: &mut [u32],
) -> u32
    ensures number { result ≡ number_of_plane source_width source_height lanes crop_x crop_y crop_width crop_height target_width target_height (length work.old) (length «record».old) }
    ensures work { work.new ≡ work_after_plane source_width source_height lanes crop_x crop_y crop_width crop_height target_width target_height work.old (length «record».old) }
    ensures record { «record».new ≡ record_after_plane source_width source_height lanes crop_x crop_y crop_width crop_height target_width target_height (length work.old) «record».old }
{
    if record.len() < RECORD_WORDS {
        return BOUNDARY;
    }
    let source = Dimensions {
        width: source_width,
        height: source_height,
    };
    let crop = Rect {
        x: crop_x,
        y: crop_y,
        width: crop_width,
        height: crop_height,
    };
    let target = Dimensions {
        width: target_width,
        height: target_height,
    };
    let answer = start_plane(source, lanes, crop, target, work);
    match answer {
        Err(why) => why.number(),
        Ok(job) => {
            store_job(job, record);
            0
        }
    }
}

// Three fresh jobs, of luma and of both chroma planes: their records in lent words, and their work rows cleared.
// Rules out: the records of luma and chroma exchanged; a record stored though another has too few words.
#[unsafe(no_mangle)]
pub extern "C" fn jonquilsaw_start_planes(
    source_width: u32,
    source_height: u32,
    target_width: u32,
    target_height: u32,
    luma_work: &mut [u32],
    cb_work: &mut [u32],
    cr_work: &mut [u32],
    luma: &mut [u32],
    cb: &mut [u32],
    cr: &mut [u32],
) -> u32
    ensures number { result ≡ number_of_planes source_width source_height target_width target_height (length luma_work.old) (length cb_work.old) (length cr_work.old) (length luma.old) (length cb.old) (length cr.old) }
    ensures luma_work { luma_work.new ≡ luma_work_after_planes source_width source_height target_width target_height luma_work.old (length cb_work.old) (length cr_work.old) (length luma.old) (length cb.old) (length cr.old) }
    ensures cb_work { cb_work.new ≡ cb_work_after_planes source_width source_height target_width target_height (length luma_work.old) cb_work.old (length cr_work.old) (length luma.old) (length cb.old) (length cr.old) }
    ensures cr_work { cr_work.new ≡ cr_work_after_planes source_width source_height target_width target_height (length luma_work.old) (length cb_work.old) cr_work.old (length luma.old) (length cb.old) (length cr.old) }
    ensures luma { luma.new ≡ luma_after_planes source_width source_height target_width target_height (length luma_work.old) (length cb_work.old) (length cr_work.old) luma.old (length cb.old) (length cr.old) }
    ensures cb { cb.new ≡ cb_after_planes source_width source_height target_width target_height (length luma_work.old) (length cb_work.old) (length cr_work.old) (length luma.old) cb.old (length cr.old) }
    ensures cr { cr.new ≡ cr_after_planes source_width source_height target_width target_height (length luma_work.old) (length cb_work.old) (length cr_work.old) (length luma.old) (length cb.old) cr.old }
{
    if luma.len() < RECORD_WORDS {
        return BOUNDARY;
    }
    if cb.len() < RECORD_WORDS {
        return BOUNDARY;
    }
    if cr.len() < RECORD_WORDS {
        return BOUNDARY;
    }
    let source = Dimensions {
        width: source_width,
        height: source_height,
    };
    let target = Dimensions {
        width: target_width,
        height: target_height,
    };
    let answer = start_planes(source, target, luma_work, cb_work, cr_work);
    match answer {
        Err(why) => why.number(),
        Ok(planes) => {
            store_job(planes.luma, luma);
            store_job(planes.cb, cb);
            store_job(planes.cr, cr);
            0
        }
    }
}
