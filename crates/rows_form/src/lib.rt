// What a row's bytes are (SCOPE, "Lanes"; "Planes"): the pixels of a picture, which are matted as they come in and restored as they go out, or the lanes of
// a plane, which are scaled as they are.
#![tactic(auto)]

ghost use Rattle.std.specs.Prelude.{◌≡◌};
ghost use Rattle.rows_form.specs.Form.{lanes_in};

use pixels::PIXEL_LANES;
use pixels_layout::PixelLayout;

#[derive(Clone, Copy)]
pub enum RowForm {
    // pixels in a layout, four lanes each
    Pixels(PixelLayout),
    // so many lanes a pixel, side by side
    Plain(u32),
}

impl RowForm {
    // The lanes of a pixel. Rules out: four lanes of every plane; a picture of three.
    pub fn lanes(self) -> u32
        ensures { result ≡ lanes_in self }
    {
        match self {
            RowForm::Pixels(_) => PIXEL_LANES as u32,
            RowForm::Plain(lanes) => lanes,
        }
    }
}
