// A crop row put into the work rows, whole: its values, and the sum where the height does not grow.
ghost use Rattle.std.specs.Prelude.{◌≡◌, length};
ghost use Rattle.pixels.specs.Refusals.{answer_number};
ghost use Rattle.rows.specs.WorkRows.{scale_of, row_in};
ghost use Rattle.rows_adding.specs.Put.{put_number, put_value, put_work};
ghost use Rattle.rows_form.specs.Form.{lanes_in};
ghost use Rattle.rows_adding.specs.Inner.{half_for, form_half};

use crate::add_halves;
use pixels::{Dimensions, Refusal, bad_size};
use pixels_sizes::bad_lanes;
use rows_form::RowForm;
use rows_pixels::import_row;
use rows_planes::import_plane_row;

// The tests, in their order, of a row of so many lanes, `bytes` bytes and `room` work values.
fn check_put(
    lanes: u32,
    crop: Dimensions,
    target: Dimensions,
    bytes: usize,
    room: usize,
) -> Result<(), Refusal>
    ensures { answer_number result ≡ put_number lanes crop target bytes room }
{
    if bad_size(crop) {
        return Err(Refusal::InvalidDimensions);
    }
    if bad_size(target) {
        return Err(Refusal::InvalidDimensions);
    }
    if bad_lanes(lanes) {
        return Err(Refusal::InvalidLanes);
    }
    if bytes != lanes as usize * crop.width as usize {
        return Err(Refusal::PixelBufferMismatch);
    }
    if room < 2 * (lanes as usize * target.width as usize) {
        return Err(Refusal::WorkLength);
    }
    Ok(())
}

// Heights h to g, w values a half: where the values of crop row c go. Kept beside half_of of rows_scaling, which knows that the height grows.
fn half_for(h: u32, g: u32, w: usize, c: u32) -> usize
    ensures { result ≡ half_for h g w c }
{
    if g <= h {
        return w;
    }
    if c % 2 == 0 {
        return w;
    }
    0
}

// The values of a row into a half, as its form asks.
fn import_in(form: RowForm, crop_width: u32, target_width: u32, row: &[u8], half: &mut [u32])
    ensures { half.new ≡ form_half form crop_width target_width row.now half.old }
{
    match form {
        RowForm::Pixels(layout) => {
            let _ = import_row(layout, crop_width, target_width, row, half);
        }
        RowForm::Plain(lanes) => {
            let _ = import_plane_row(lanes, crop_width, target_width, row, half);
        }
    }
}

// A row that passed its tests: no call below refuses it.
fn row_in(form: RowForm, crop: Dimensions, target: Dimensions, c: u32, row: &[u8], work: &mut [u32])
    requires { put_number (lanes_in form) crop target (length row.now) (length work.old) ≡ 0 }
    ensures { work.new ≡ row_in (scale_of (lanes_in form) crop target) c (put_value form crop target row.now) work.old }
{
    let w = form.lanes() as usize * target.width as usize;
    let at = half_for(crop.height, target.height, w, c);
    import_in(form, crop.width, target.width, row, &mut work[at..]);
    if crop.height < target.height {
        return;
    }
    let _ = add_halves(w, work);
}

// Crop row c comes into the work rows: its values into its half, then, where the height does not grow, added to the first. The Rust: a turn of Rescaler::import.
// Rules out: the halves exchanged for even and odd rows; a row put and not added.
pub fn put_row(
    form: RowForm,
    crop: Dimensions,
    target: Dimensions,
    c: u32,
    row: &[u8],
    work: &mut [u32],
) -> Result<(), Refusal>
    ensures number { answer_number result ≡ put_number (lanes_in form) crop target (length row.now) (length work.old) }
    ensures work { work.new ≡ put_work form crop target c row.now work.old }
{
    check_put(form.lanes(), crop, target, row.len(), work.len())?;
    row_in(form, crop, target, c, row, work);
    Ok(())
}
