// The library for C (include/jonquilsaw.h), whole pictures: numbers and slices only. In C a slice is a pointer, then a count of elements.
// Every function answers for all arguments: 0 where the call was accepted, SCOPE's number where it was refused, and BOUNDARY for what only
// this boundary can be asked, tested first.
#![tactic(auto)]

ghost use Rattle.std.specs.Prelude.{◌≡◌, length};
ghost use Rattle.pixels.specs.Refusals.{buffer_if, answer_number, flagged_flag};
ghost use Rattle.capi_words.specs.Boundary.{stored_flag};
ghost use Rattle.capi_pictures.specs.Pictures.{number_of_has_alpha, flag_after_has_alpha, number_of_crop, out_after_crop, flag_after_crop, number_of_resize, out_after_resize, work_after_resize, flag_after_resize, number_of_plane, pixels_after_plane, flag_after_plane, number_of_badge, pixels_after_badge, number_of_scaled, size_after_scaled};

use capi_words::{BOUNDARY, LAYOUTS, flag_word, layout_of, misused, number_of, store};
use pixels::{Dimensions, Rect, Refusal};

// The number of an answer by a flag, which is stored in one lent word.
fn store_flag(answer: Result<bool, Refusal>, flag: &mut [u32]) -> u32
    ensures number { result ≡ answer_number answer }
    ensures flag { flag.new ≡ buffer_if (answer_number answer) (stored_flag (flagged_flag answer) flag.old) flag.old }
{
    match answer {
        Err(why) => why.number(),
        Ok(f) => {
            store(&[flag_word(f)], flag);
            0
        }
    }
}

// ---- the exported functions

// The alpha flag of a picture, 0 or 1, in one lent word.
// Rules out: a layout word that names none let through; the picture taken for a square; the first layout read for every word.
#[unsafe(no_mangle)]
pub extern "C" fn jonquilsaw_has_alpha(
    width: u32,
    height: u32,
    layout: u32,
    pixels: &[u8],
    flag: &mut [u32],
) -> u32
    ensures number { result ≡ number_of_has_alpha width height layout (length pixels.now) (length flag.old) }
    ensures flag { flag.new ≡ flag_after_has_alpha width height layout pixels.now flag.old }
{
    if misused(layout, flag.len(), 1) {
        return BOUNDARY;
    }
    let answer = pixels_alpha::picture_has_alpha(
        Dimensions { width, height },
        layout_of(layout),
        pixels,
    );
    store_flag(answer, flag)
}

// The crop of a picture, and its flag in one lent word.
// Rules out: the corner's x and y exchanged; the first layout read for every word.
#[unsafe(no_mangle)]
pub extern "C" fn jonquilsaw_crop(
    source_width: u32,
    source_height: u32,
    layout: u32,
    crop_x: u32,
    crop_y: u32,
    crop_width: u32,
    crop_height: u32,
    pixels: &[u8],
    out: &mut [u8],
    flag: &mut [u32],
) -> u32
    ensures number { result ≡ number_of_crop source_width source_height layout crop_x crop_y crop_width crop_height (length pixels.now) (length out.old) (length flag.old) }
    ensures out { out.new ≡ out_after_crop source_width source_height layout crop_x crop_y crop_width crop_height pixels.now out.old (length flag.old) }
    ensures flag { flag.new ≡ flag_after_crop source_width source_height layout crop_x crop_y crop_width crop_height pixels.now (length out.old) flag.old }
{
    if misused(layout, flag.len(), 1) {
        return BOUNDARY;
    }
    let source = Dimensions {
        width: source_width,
        height: source_height,
    };
    let rect = Rect {
        x: crop_x,
        y: crop_y,
        width: crop_width,
        height: crop_height,
    };
    let answer = pixels_crop::crop(source, layout_of(layout), pixels, rect, out);
    store_flag(answer, flag)
}

// A whole picture scaled, and its flag in one lent word.
// Rules out: source and target exchanged; the first layout read for every word.
#[unsafe(no_mangle)]
pub extern "C" fn jonquilsaw_resize(
    source_width: u32,
    source_height: u32,
    layout: u32,
    target_width: u32,
    target_height: u32,
    pixels: &[u8],
    out: &mut [u8],
    work: &mut [u32],
    flag: &mut [u32],
) -> u32
    ensures number { result ≡ number_of_resize source_width source_height layout target_width target_height (length pixels.now) (length out.old) (length work.old) (length flag.old) }
    ensures out { out.new ≡ out_after_resize source_width source_height layout target_width target_height pixels.now out.old (length work.old) (length flag.old) }
    ensures work { work.new ≡ work_after_resize source_width source_height layout target_width target_height pixels.now (length out.old) work.old (length flag.old) }
    ensures flag { flag.new ≡ flag_after_resize source_width source_height layout target_width target_height pixels.now (length out.old) (length work.old) flag.old }
{
    if misused(layout, flag.len(), 1) {
        return BOUNDARY;
    }
    let source = Dimensions {
        width: source_width,
        height: source_height,
    };
    let target = Dimensions {
        width: target_width,
        height: target_height,
    };
    let answer = job_resize::resize(source, layout_of(layout), target, pixels, out, work);
    store_flag(answer, flag)
}

// Writes a plane's bytes to the alpha bytes of a picture, and the flag of the picture so made in one lent word.
// Rules out: the picture taken for a square; the first layout read for every word.
#[unsafe(no_mangle)]
pub extern "C" fn jonquilsaw_apply_alpha_plane(
    width: u32,
    height: u32,
    layout: u32,
    pixels: &mut [u8],
    plane: &[u8],
    flag: &mut [u32],
) -> u32
    ensures number { result ≡ number_of_plane width height layout (length pixels.old) (length plane.now) (length flag.old) }
    ensures pixels { pixels.new ≡ pixels_after_plane width height layout pixels.old plane.now (length flag.old) }
    ensures flag { flag.new ≡ flag_after_plane width height layout pixels.old plane.now flag.old }
{
    if misused(layout, flag.len(), 1) {
        return BOUNDARY;
    }
    let answer = pixels_alpha::apply_alpha_plane(
        Dimensions { width, height },
        layout_of(layout),
        pixels,
        plane,
    );
    store_flag(answer, flag)
}

// Lays a badge on an opaque background of the same size.
// Rules out: the badge's layout word not tested; the background's layout read for the badge.
#[unsafe(no_mangle)]
pub extern "C" fn jonquilsaw_badge_lay(
    width: u32,
    height: u32,
    layout: u32,
    pixels: &mut [u8],
    badge_width: u32,
    badge_height: u32,
    badge_layout: u32,
    badge: &[u8],
) -> u32
    ensures number { result ≡ number_of_badge width height layout pixels.old badge_width badge_height badge_layout (length badge.now) }
    ensures pixels { pixels.new ≡ pixels_after_badge width height layout pixels.old badge_width badge_height badge_layout badge.now }
{
    if layout >= LAYOUTS {
        return BOUNDARY;
    }
    if badge_layout >= LAYOUTS {
        return BOUNDARY;
    }
    let badge_size = Dimensions {
        width: badge_width,
        height: badge_height,
    };
    let answer = pixels_badge::lay_badge(
        Dimensions { width, height },
        layout_of(layout),
        pixels,
        badge_size,
        layout_of(badge_layout),
        badge,
    );
    number_of(answer)
}

// The size that a picture scales to, width and height in two lent words; a target side of 0 is derived from the other.
// Rules out: the two words exchanged; a size stored where one word is lent.
#[unsafe(no_mangle)]
pub extern "C" fn jonquilsaw_scaled(
    width: u32,
    height: u32,
    target_width: u32,
    target_height: u32,
    size: &mut [u32],
) -> u32
    ensures number { result ≡ number_of_scaled width height target_width target_height (length size.old) }
    ensures size { size.new ≡ size_after_scaled width height target_width target_height size.old }
{
    if size.len() < 2 {
        return BOUNDARY;
    }
    let answer = Dimensions { width, height }.scaled(target_width, target_height);
    match answer {
        Err(why) => why.number(),
        Ok(d) => {
            store(&[d.width, d.height], size);
            0
        }
    }
}
