// A borrowed picture (SCOPE, "Lanes": "A borrowed picture, as `ImageRef`, holds size, layout and pixels"; the Rust: ImageRef of image.rs).
#![tactic(auto)]

ghost use Rattle.std.specs.Prelude.{◌≡◌, length};
ghost use Rattle.pixels.specs.Refusals.{answer_number, flagged_flag};
ghost use Rattle.pixels_alpha.specs.Alpha.{picture_number, picture_flag};
ghost use Rattle.pixels_crop.specs.Crop.{crop_number, crop_flag, crop_out};
ghost use Rattle.job_resize.specs.Resize.{resize_number, resize_flag, resize_out, resize_work};

use job_resize::resize;
use pixels::{Dimensions, Rect, Refusal};
use pixels_alpha::{check_picture, picture_has_alpha};
use pixels_crop::crop;
use pixels_layout::PixelLayout;

#[derive(Clone, Copy)]
pub struct ImageRef<'a> {
    pub dims: Dimensions,
    pub layout: PixelLayout,
    pub pixels: &'a [u8],
}

// What `new` answers: the picture, and whether its size and its length pass.
// Kept beside the Result: the picture is there in each case (`dims`, `layout`, `pixels` of `new`); one that does not pass is refused again wherever it is used.
#[derive(Clone, Copy)]
pub struct Borrowed<'a> {
    pub checked: Result<(), Refusal>,
    pub image: ImageRef<'a>,
}

impl<'a> ImageRef<'a> {
    // The Rust's new, which tests the length; the size is tested too, since a size counts, whoever filled it.
    // Rules out: twelve bytes for each pixel passed; the size handed back with its sides exchanged.
    pub fn new(dims: Dimensions, layout: PixelLayout, pixels: &'a [u8]) -> Borrowed<'a>
        ensures number { answer_number result.checked ≡ picture_number dims (length pixels.now) }
        ensures dims { result.image.dims ≡ dims }
        ensures layout { result.image.layout ≡ layout }
        ensures pixels { result.image.pixels ≡ pixels.entry }
    {
        Borrowed {
            checked: check_picture(dims, pixels.len()),
            image: ImageRef {
                dims,
                layout,
                pixels,
            },
        }
    }

    // The Rust's dimensions. Rules out: the sides exchanged; no size.
    pub fn dimensions(self) -> Dimensions
        ensures { result ≡ self.entry.dims }
    {
        self.dims
    }

    // The Rust's layout. Rules out: the first layout always; the last always.
    pub fn layout(self) -> PixelLayout
        ensures { result ≡ self.entry.layout }
    {
        self.layout
    }

    // The Rust's as_bytes. Rules out: no bytes; the bytes after the first.
    pub fn as_bytes(self) -> &'a [u8]
        ensures { result ≡ self.entry.pixels }
    {
        self.pixels
    }

    // The alpha flag, as the Rust's Image::new derives it. Rules out: the flag of another layout; the flag of a square's pixels.
    pub fn has_alpha(self) -> Result<bool, Refusal>
        ensures number { answer_number result ≡ picture_number self.entry.dims (length self.entry.pixels.now) }
        ensures flag { flagged_flag result ≡ picture_flag self.entry.dims self.entry.layout self.entry.pixels.now }
    {
        picture_has_alpha(self.dims, self.layout, self.pixels)
    }

    // The Rust's Image::crop. Rules out: the flag of another layout; every crop from the left edge.
    pub fn crop(self, rect: Rect, out: &mut [u8]) -> Result<bool, Refusal>
        ensures number { answer_number result ≡ crop_number self.entry.dims rect (length self.entry.pixels.now) (length out.old) }
        ensures flag { flagged_flag result ≡ crop_flag self.entry.dims self.entry.layout rect self.entry.pixels.now (length out.old) }
        ensures out { out.new ≡ crop_out self.entry.dims rect self.entry.pixels.now out.old }
    {
        crop(self.dims, self.layout, self.pixels, rect, out)
    }

    // The Rust's Image::resize. Rules out: a picture of the source's own size; one of another layout.
    pub fn resize(
        self,
        target: Dimensions,
        out: &mut [u8],
        work: &mut [u32],
    ) -> Result<bool, Refusal>
        ensures number { answer_number result ≡ resize_number self.entry.dims target (length self.entry.pixels.now) (length out.old) (length work.old) }
        ensures flag { flagged_flag result ≡ resize_flag self.entry.dims self.entry.layout target self.entry.pixels.now (length out.old) (length work.old) }
        ensures out { out.new ≡ resize_out self.entry.dims self.entry.layout target self.entry.pixels.now out.old (length work.old) }
        ensures work { work.new ≡ resize_work self.entry.dims self.entry.layout target self.entry.pixels.now (length out.old) work.old }
    {
        resize(self.dims, self.layout, target, self.pixels, out, work)
    }
}
