// What the calls of a job are held to (SCOPE, "The job" and "Why a call is turned away"): the plan, the record rules and the tests of each call. The record comes
// as its parts, since it stands above, with its calls.
#![tactic(auto)]

ghost use Rattle.std.specs.Prelude.{◌≡◌, ltb};
ghost use Rattle.pixels.specs.Refusals.{answer_number};
ghost use Rattle.pixels.specs.Sizes.{row_bytes, work_values};
ghost use Rattle.job_rules.specs.Rules.{lanes_of, form_of, kind_fits, R, lawful_of, start_number, offer_number_of, take_number_of};

use pixels::{Dimensions, PIXEL_LANES, Rect, Refusal};
use pixels_layout::PixelLayout;
use pixels_sizes::{bad_lanes, check_sizes, crop_beyond, wrong_sizes};
use rows_form::RowForm;
use rows_schedule::{counts_fit, rows_by};

// What a job scales: a picture's pixels, matted and restored, or a plane's lanes as they are.
#[derive(Clone, Copy, PartialEq, Eq)]
pub enum Kind {
    Picture,
    Plane,
}

// What does not change in a job. A picture has the four lanes of its pixels; a plane has 1 to 4 and the layout Rgba8.
#[derive(Clone, Copy)]
pub struct Plan {
    pub source: Dimensions,
    pub layout: PixelLayout,
    pub crop: Rect,
    pub target: Dimensions,
    pub kind: Kind,
    pub lanes: u32,
}

// ---- numbers

// The bytes of a row of `width` pixels, which are also the values of a half.
// Rules out: a byte less for each pixel; the source's width always.
pub fn row_bytes(p: Plan, width: u32) -> usize
    ensures { result ≡ row_bytes (lanes_of p) width }
{
    p.lanes as usize * width as usize
}

// Fewer than two halves of work values.
fn short_work(p: Plan, n: usize) -> bool
    ensures { result ≡ ltb n (work_values (lanes_of p) p.target.width) }
{
    n / 2 < row_bytes(p, p.target.width)
}

impl Plan {
    // R(k). A row is ready while it is above the rows taken: the Rust's Rescaler::has_pending_output, there by an accumulator.
    // Rules out: the rows of the whole source; the crop and the target height exchanged.
    pub fn made(self, accepted: u32) -> u64
        ensures { result ≡ R self accepted }
    {
        rows_by(self.crop.y, self.crop.height, self.target.height, accepted)
    }
}

// What the bytes of a job's rows are. Rules out: a plane's rows matted; lanes of a plane counted as four.
pub fn row_form(p: Plan) -> RowForm
    ensures { result ≡ form_of p }
{
    match p.kind {
        Kind::Picture => RowForm::Pixels(p.layout),
        Kind::Plane => RowForm::Plain(p.lanes),
    }
}

// ---- the record rules

// A picture has its pixels' lanes; a plane has 1 to 4, the layout Rgba8 and no flag.
fn kind_fits(p: Plan, flag: bool) -> bool
    ensures { result ≡ kind_fits p.kind p.layout p.lanes flag }
{
    let lanes = p.lanes;
    if p.kind == Kind::Picture {
        return lanes == PIXEL_LANES as u32;
    }
    if p.layout != PixelLayout::Rgba8 {
        return false;
    }
    if bad_lanes(lanes) {
        return false;
    }
    !flag
}

// Of a record with this plan, rows accepted, rows taken and flag.
// Rules out: a flag before the first row taken; the rows accepted held to the crop's height; a plane's flag let pass.
pub fn check_rules(p: Plan, accepted: u32, taken: u32, flag: bool) -> bool
    ensures { result ≡ lawful_of p accepted taken flag }
{
    if check_sizes(p.source, p.crop, p.target).is_err() {
        return false;
    }
    if !counts_fit(
        p.crop.y,
        p.crop.height,
        p.target.height,
        p.source.height,
        accepted,
        taken,
    ) {
        return false;
    }
    if !kind_fits(p, flag) {
        return false;
    }
    if taken != 0 {
        return true;
    }
    !flag
}

// ---- the tests of each call, in their order

// Those of a start. Rules out: every start refused; work values for one half alone; 5 told where 1 is owed; 2 told before 10; five lanes let pass.
pub fn check_start(p: Plan, work: usize) -> Result<(), Refusal>
    ensures { answer_number result ≡ start_number p work }
{
    if wrong_sizes(p.source, p.crop, p.target) {
        return Err(Refusal::InvalidDimensions);
    }
    if bad_lanes(p.lanes) {
        return Err(Refusal::InvalidLanes);
    }
    if crop_beyond(p.crop, p.source) {
        return Err(Refusal::CropOutOfBounds);
    }
    if short_work(p, work) {
        return Err(Refusal::WorkLength);
    }
    Ok(())
}

// Those of an offer, of the bytes lent and the work values. Rules out: every offer of rows refused; 7 and 8 exchanged; 8 told once as many rows as the crop has are
// accepted.
pub fn check_offer(
    p: Plan,
    accepted: u32,
    taken: u32,
    flag: bool,
    bytes: usize,
    work: usize,
) -> Result<(), Refusal>
    ensures { answer_number result ≡ offer_number_of p accepted taken flag bytes work }
{
    if !check_rules(p, accepted, taken, flag) {
        return Err(Refusal::InvalidRecord);
    }
    if bytes == 0 {
        return Err(Refusal::PixelBufferMismatch);
    }
    if bytes % row_bytes(p, p.source.width) != 0 {
        return Err(Refusal::PixelBufferMismatch);
    }
    if short_work(p, work) {
        return Err(Refusal::WorkLength);
    }
    if (taken as u64) < p.made(accepted) {
        return Err(Refusal::RowReady);
    }
    if p.source.height <= accepted {
        return Err(Refusal::AllAccepted);
    }
    Ok(())
}

// Those of a take, of the bytes of output and the work values. Rules out: every take into a row of the exact length refused; 5 told for an output of another length;
// 9 told by what the rows taken would make.
pub fn check_take(
    p: Plan,
    accepted: u32,
    taken: u32,
    flag: bool,
    bytes: usize,
    work: usize,
) -> Result<(), Refusal>
    ensures { answer_number result ≡ take_number_of p accepted taken flag bytes work }
{
    if !check_rules(p, accepted, taken, flag) {
        return Err(Refusal::InvalidRecord);
    }
    if bytes != row_bytes(p, p.target.width) {
        return Err(Refusal::OutputLength);
    }
    if short_work(p, work) {
        return Err(Refusal::WorkLength);
    }
    if p.made(accepted) <= taken as u64 {
        return Err(Refusal::NoneReady);
    }
    Ok(())
}
