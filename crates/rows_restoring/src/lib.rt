// Pixels of an output row are restored and packed (SCOPE, "A row goes out" and "Lanes"; the Rust: mult_argb with `inverse` and pack_pixels;
// libwebp's WebPMultARGBRow_C). In place, in passes: is the row opaque; if not, restore; then the byte order.
#![tactic(auto)]

ghost use Rattle.std.specs.Prelude.{◌≡◌, ℕ, ◌+◌, ◌*◌, ◌^◌, ◌≤◌, ◌<◌, min, length, get_or, set};
ghost use Rattle.arithmetic.specs.Matte.{lane_of, restore_factor, cut_colour, restore_factors};
ghost use Rattle.arithmetic.specs.Table.{tabulate};
ghost use Rattle.pixels.specs.Refusals.{answer_number, flagged_flag};
ghost use Rattle.pixels.specs.Sizes.{pixel_lanes, row_bytes};
ghost use Rattle.pixels_layout.specs.Lanes.{restored_place};
ghost use Rattle.pixels_alpha.specs.Alpha.{some_clear};
ghost use Rattle.rows_restoring.specs.Restoring.{restore_number, restored_out, row_flag};
ghost use Rattle.rows_restoring.specs.Inner.Restoring.{pixels_in, alpha_in, restored_at, put_colours, restored_bytes, word_at, put_lanes, ordered_bytes, ordered_word};

use arithmetic::restore_factors;
use pixels::{PIXEL_LANES, Refusal, bad_side};
use pixels_layout::PixelLayout;

// The pixel AARRGGBB whose lanes stand from `at` on.
fn word(out: &[u8], at: usize) -> u32
    requires { at + pixel_lanes ≤ length out.now }
    ensures { result ≡ word_at out.now at }
{
    u32::from_le_bytes([out[at], out[at + 1], out[at + 2], out[at + 3]])
}

// Stores the lanes of a pixel from `at` on.
// Kept: four stores. copy_from_slice tests whether the two places overlap, and of the loop that exchanges blue and red the compiler then makes no vectors.
fn put_word(out: &mut [u8], at: usize, argb: u32)
    requires { at + pixel_lanes ≤ length out.old }
    ensures { out.new ≡ put_lanes out.old at (lane_of argb) }
{
    let lanes = argb.to_le_bytes();
    out[at] = lanes[0];
    out[at + 1] = lanes[1];
    out[at + 2] = lanes[2];
    out[at + 3] = lanes[3];
}

// Whether some pixel isn't opaque: the high byte of all pixels and-ed is 255 exactly if every alpha is. The compiler ands four pixels at once.
fn some_clear(out: &[u8]) -> bool
    ensures { result ≡ some_clear (alpha_in out.now) (pixels_in out.now) }
{
    let mut all = u32::MAX;
    for j in 0..out.len() / PIXEL_LANES {
        all &= word(out, PIXEL_LANES * j);
    }
    all / 16777216 != 255
}

// The factors to restore of every alpha: with those of 0 and 255 among them neither needs a case of its own.
#[derive(Drop)]
struct Factors {
    every: [u32; 256],
    ghost whole: { every ≡ tabulate restore_factor 256 },
}

impl Factors {
    // The lent factors, between those of alpha 0 and 255.
    fn laid_out() -> Factors {
        let mut every = [0u32; 256];
        every[1..255].copy_from_slice(&restore_factors());
        every[255] = 16777216;
        Factors { every }
    }

    fn of(&self, alpha: u8) -> u32
        ensures { result ≡ restore_factor alpha }
    {
        self.every[alpha as usize]
    }
}

// One colour restored by the factor of its alpha, and cut at 255.
fn restored(colour: u8, factor: u32) -> u8
    ensures { result ≡ cut_colour colour factor }
{
    let scaled = (colour as u64 * factor as u64 + 8388608) / 16777216;
    // Kept: of min the compiler makes a jump here, and a translucent picture takes about a tenth more time.
    if scaled < 255 {
        return scaled as u8;
    }
    255
}

// Restores the colours of the pixel at `at`; its alpha stays.
fn restore_pixel(out: &mut [u8], at: usize, factors: &Factors)
    requires { at + pixel_lanes ≤ length out.old }
    ensures { out.new ≡ put_colours out.old at (restored_at out.old at) }
{
    let factor = factors.of(out[at + 3]);
    let b = restored(out[at], factor);
    let g = restored(out[at + 1], factor);
    let r = restored(out[at + 2], factor);
    out[at] = b;
    out[at + 1] = g;
    out[at + 2] = r;
}

// Restores every pixel. An opaque pixel is restored already.
fn restore_pixels(out: &mut [u8], factors: &Factors)
    ensures { out.new ≡ restored_bytes out.old }
{
    for j in 0..out.len() / PIXEL_LANES {
        let at = PIXEL_LANES * j;
        if out[at + 3] != 255 {
            restore_pixel(out, at, factors);
        }
    }
}

// Restores every pixel; whether some pixel isn't opaque. An opaque row is restored already; for any other the factors are laid out once.
fn restore_lanes(out: &mut [u8]) -> bool
    ensures flag { result ≡ some_clear (alpha_in out.old) (pixels_in out.old) }
    ensures out { out.new ≡ restored_bytes out.old }
{
    if !some_clear(out) {
        return false;
    }
    restore_pixels(out, &Factors::laid_out());
    true
}

// Blue and red exchanged. Of quotients and remainders of a word the compiler makes vectors, of exchanged bytes it makes none.
fn swapped(argb: u32) -> u32
    ensures { result ≡ ordered_word PixelLayout.Rgba8 argb }
{
    argb / 65536 % 256
        + 256 * (argb / 256 % 256)
        + 65536 * (argb % 256)
        + 16777216 * (argb / 16777216)
}

// All four lanes reversed.
fn reversed(argb: u32) -> u32
    ensures { result ≡ ordered_word PixelLayout.Argb8 argb }
{
    argb.swap_bytes()
}

// The byte order of a layout, by a function that puts the lanes of a pixel in that order.
fn order_words<F: Fn(u32) -> u32>(out: &mut [u8], order: F)
    ghost layout: { PixelLayout }
    requires callable { F.IsAlwaysCallable order }
    requires orders { (argb ordered : ℕ) → argb < 2 ^ 32 → F.post order argb ordered → ordered ≡ ordered_word layout argb }
    ensures { out.new ≡ ordered_bytes layout out.old }
{
    for j in 0..out.len() / PIXEL_LANES {
        let at = PIXEL_LANES * j;
        let argb = word(out, at);
        put_word(out, at, order(argb));
    }
}

// The byte order of a layout.
fn order_lanes(layout: PixelLayout, out: &mut [u8])
    ensures { out.new ≡ ordered_bytes layout out.old }
{
    match layout {
        PixelLayout::Rgba8 => order_words(out, swapped),
        PixelLayout::Argb8 => order_words(out, reversed),
        PixelLayout::Bgra8 => {}
    }
}

// The tests, in the order of their numbers, of a row of `out` bytes.
fn check_restore(target_width: u32, out: usize) -> Result<(), Refusal>
    ensures { answer_number result ≡ restore_number target_width out }
{
    if bad_side(target_width as u64) {
        return Err(Refusal::InvalidDimensions);
    }
    if out != PIXEL_LANES * target_width as usize {
        return Err(Refusal::OutputLength);
    }
    Ok(())
}

// Restores a row of lanes B, G, R, A in place and packs it. The Rust: mult_argb with `inverse` and pack_pixels after Rescaler::export_row.
// Rules out: a restored colour that spills into the next lane; two lanes exchanged; a flag that looks at a colour, or is always set.
pub fn restore_row(layout: PixelLayout, target_width: u32, out: &mut [u8]) -> Result<bool, Refusal>
    ensures number { answer_number result ≡ restore_number target_width (length out.old) }
    ensures flag { flagged_flag result ≡ row_flag layout target_width out.old }
    ensures out { out.new ≡ restored_out layout target_width out.old }
{
    check_restore(target_width, out.len())?;
    let flag = restore_lanes(out);
    order_lanes(layout, out);
    Ok(flag)
}
