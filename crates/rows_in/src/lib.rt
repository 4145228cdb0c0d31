// A source row comes in (SCOPE, "The job": "Rows outside the crop count and touch no work value"; the Rust: a turn of Rescaler::import).
#![tactic(auto)]

ghost use Rattle.std.specs.Prelude.{◌≡◌, length};
ghost use Rattle.pixels.specs.Refusals.{answer_number};
ghost use Rattle.rows_form.specs.Form.{lanes_in};
ghost use Rattle.rows_in.specs.In.{in_number, in_work};

use pixels::{Dimensions, Rect, Refusal};
use pixels_crop::window;
use rows_adding::put_row;
use rows_form::RowForm;

// Source row s: above and below the crop nothing happens; inside it, its crop window, a part of the row as lent, is put into the work rows.
// Rules out: the row under the crop's last put too; a window from the source's left edge.
pub fn put_source_row(
    form: RowForm,
    crop: Rect,
    target: Dimensions,
    s: u32,
    row: &[u8],
    work: &mut [u32],
) -> Result<(), Refusal>
    ensures number { answer_number result ≡ in_number (lanes_in form) crop target s row.now (length work.old) }
    ensures work { work.new ≡ in_work form crop target s row.now work.old }
{
    if s < crop.y {
        return Ok(());
    }
    let c = s - crop.y;
    if crop.height <= c {
        return Ok(());
    }
    let part = window(form.lanes(), row, crop.x, crop.width);
    let size = Dimensions {
        width: crop.width,
        height: crop.height,
    };
    put_row(form, size, target, c, part, work)
}
