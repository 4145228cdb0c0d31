// The tests of a row that comes in and of one that goes out, in the order of their numbers (SCOPE, "Why a call is turned away").
#![tactic(auto)]

ghost use Rattle.std.specs.Prelude.{◌≡◌};
ghost use Rattle.pixels.specs.Refusals.{answer_number};
ghost use Rattle.rows_tests.specs.Tests.{import_number, scale_number, values_number};

use pixels::{Dimensions, Refusal, bad_side, bad_size};
use pixels_sizes::bad_lanes;
use rows_due::due;

// What rows are scaled by: SCOPE's span, crop height h and target height g, and w, the values of a half.
#[derive(Clone, Copy)]
pub struct RowScale {
    pub span: u32,
    pub h: u32,
    pub g: u32,
    pub w: usize,
}

// Those of a row that comes in, of so many lanes, `bytes` bytes and a half of `room` values.
// Rules out: a crop of the largest width refused; 5 told before 3.
pub fn check_import(
    lanes: u32,
    crop_width: u32,
    target_width: u32,
    bytes: usize,
    room: usize,
) -> Result<(), Refusal>
    ensures { answer_number result ≡ import_number lanes crop_width target_width bytes room }
{
    if bad_side(crop_width as u64) {
        return Err(Refusal::InvalidDimensions);
    }
    if bad_side(target_width as u64) {
        return Err(Refusal::InvalidDimensions);
    }
    if bad_lanes(lanes) {
        return Err(Refusal::InvalidLanes);
    }
    if bytes != lanes as usize * crop_width as usize {
        return Err(Refusal::PixelBufferMismatch);
    }
    if room < lanes as usize * target_width as usize {
        return Err(Refusal::WorkLength);
    }
    Ok(())
}

// Those of `scale_row`, of an output of `out` bytes and `work` work values.
// Rules out: 5 told before 4; a row made before its crop rows are in.
pub fn check_scale(
    lanes: u32,
    crop: Dimensions,
    target: Dimensions,
    used: u32,
    row: u32,
    out: usize,
    work: usize,
) -> Result<(), Refusal>
    ensures { answer_number result ≡ scale_number lanes crop target used row out work }
{
    if bad_size(crop) {
        return Err(Refusal::InvalidDimensions);
    }
    if bad_size(target) {
        return Err(Refusal::InvalidDimensions);
    }
    if bad_lanes(lanes) {
        return Err(Refusal::InvalidLanes);
    }
    let w = lanes as usize * target.width as usize;
    let both = 2 * w;
    if out != w {
        return Err(Refusal::OutputLength);
    }
    if work < both {
        return Err(Refusal::WorkLength);
    }
    if !due(crop.height, target.height, used, row) {
        return Err(Refusal::NoneReady);
    }
    Ok(())
}

// Those of `scale_values`, of an output of `out` bytes and `work` work values.
// Rules out: a row of a crop without rows; work values for one half alone.
pub fn check_values(
    s: RowScale,
    used: u32,
    row: u32,
    out: usize,
    work: usize,
) -> Result<(), Refusal>
    ensures { answer_number result ≡ values_number s used row out work }
{
    if s.span == 0 {
        return Err(Refusal::InvalidDimensions);
    }
    if s.h == 0 {
        return Err(Refusal::InvalidDimensions);
    }
    if out != s.w {
        return Err(Refusal::OutputLength);
    }
    if work / 2 < s.w {
        return Err(Refusal::WorkLength);
    }
    if !due(s.h, s.g, used, row) {
        return Err(Refusal::NoneReady);
    }
    Ok(())
}
