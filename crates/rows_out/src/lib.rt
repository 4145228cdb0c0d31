// A row goes out, whole (SCOPE, "A row goes out"; the Rust: Rescaler::export_row and the end of resize): scaled, restored and packed.
#![tactic(auto)]

ghost use Rattle.std.specs.Prelude.{◌≡◌, length};
ghost use Rattle.arithmetic.specs.Weight as weight;
ghost use Rattle.pixels.specs.Refusals.{answer_number, flagged_flag};
ghost use Rattle.rows_form.specs.Form.{lanes_in};
ghost use Rattle.rows_tests.specs.Tests.{scale_number};
ghost use Rattle.rows_out.specs.Scaled.{scaled_out, scaled_work};
ghost use Rattle.rows_out.specs.Inner.{finish_number, finish_flag, finish_out};
ghost use Rattle.rows_out.specs.Out.{out_number, out_flag, out_row, out_work};

use pixels::{Dimensions, Rect, Refusal};
use rows_form::RowForm;
use rows_restoring::restore_row;
use rows_scaling::scale_values;
use rows_schedule::used_rows;
use rows_tests::{RowScale, check_scale};

// SCOPE's span.
fn span(n: u32, m: u32) -> u32
    ensures { result ≡ weight.span n m }
{
    if m <= n {
        return n;
    }
    m - 1
}

// Makes output row `row` (SCOPE's Y) of a crop of which `used` rows came in, so many lanes a pixel, none of them restored yet.
// Rules out: half of the row's values; a span of the whole target where the width grows.
pub fn scale_row(
    lanes: u32,
    crop: Dimensions,
    target: Dimensions,
    used: u32,
    row: u32,
    out: &mut [u8],
    work: &mut [u32],
) -> Result<(), Refusal>
    ensures number { answer_number result ≡ scale_number lanes crop target used row (length out.old) (length work.old) }
    ensures out { out.new ≡ scaled_out lanes crop target used row out.old work.old }
    ensures work { work.new ≡ scaled_work lanes crop target used row (length out.old) work.old }
{
    check_scale(lanes, crop, target, used, row, out.len(), work.len())?;
    let s = RowScale {
        span: span(crop.width, target.width),
        h: crop.height,
        g: target.height,
        w: lanes as usize * target.width as usize,
    };
    scale_values(s, used, row, out, work)
}

// The lanes of a row, as they are to be handed out: those of a picture restored and packed, those of a plane as they are. Returns the row's alpha flag.
fn finish_row(form: RowForm, width: u32, out: &mut [u8]) -> Result<bool, Refusal>
    ensures number { answer_number result ≡ finish_number form width (length out.old) }
    ensures flag { flagged_flag result ≡ finish_flag form width out.old }
    ensures out { out.new ≡ finish_out form width out.old }
{
    match form {
        RowForm::Pixels(layout) => restore_row(layout, width, out),
        RowForm::Plain(_) => Ok(false),
    }
}

// Makes output row `row` (SCOPE's Y), of which `accepted` source rows came in; returns the row's alpha flag.
// Rules out: the first row again and again; a row made of no crop rows; the flag of the row dropped; a flag of every plane's row.
pub fn take_row(
    form: RowForm,
    crop: Rect,
    target: Dimensions,
    accepted: u32,
    row: u32,
    out: &mut [u8],
    work: &mut [u32],
) -> Result<bool, Refusal>
    ensures number { answer_number result ≡ out_number (lanes_in form) crop target accepted row (length out.old) (length work.old) }
    ensures flag { flagged_flag result ≡ out_flag form crop target accepted row (length out.old) work.old }
    ensures out { out.new ≡ out_row form crop target accepted row out.old work.old }
    ensures work { work.new ≡ out_work (lanes_in form) crop target accepted row (length out.old) work.old }
{
    let used = used_rows(crop.y, crop.height, accepted);
    let size = Dimensions {
        width: crop.width,
        height: crop.height,
    };
    scale_row(form.lanes(), size, target, used, row, out, work)?;
    finish_row(form, target.width, out)
}
