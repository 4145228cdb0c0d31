// A club badge over an opaque background of the same size, in place (SCOPE, "A badge over a background"). One pass that tests, one that writes.
#![tactic(auto)]

ghost use Rattle.std.specs.Prelude.{◌≡◌, ◌+◌, ◌*◌, ◌/◌, ◌^◌, ◌≤◌, min, length};
ghost use Rattle.pixels.specs.Refusals.{answer_number};
ghost use Rattle.pixels.specs.Sizes.{pixel_lanes};
ghost use Rattle.pixels_alpha.specs.Alpha.{has_alpha};
ghost use Rattle.pixels_badge.specs.Badge.{blended, laid, both_number, other_size, badge_number, badge_out};
ghost use Rattle.pixels_badge.specs.Inner.{word_at, put_word, LanesAre, opaque_word, filled_by, alpha_in, colour_in, TurnAsks, pair_at, put_pair, blended_pair, blended_block, BlockAsks, block_bytes, LayAsks};

use arithmetic::matte;
use pixels::{Dimensions, PIXEL_LANES, Refusal, bad_size};
use pixels_layout::PixelLayout;
use pixels_sizes::wrong_length;

// ---- a pixel as a word, its first byte the lowest. Of words the compiler makes vectors, of bytes at a pixel's places it makes none.
// Kept beside those of rows_restoring: a function with a `requires` is called within its crate alone.

// The pixel whose bytes stand from `at` on.
fn word(bytes: &[u8], at: usize) -> u32
    requires { at + pixel_lanes ≤ length bytes.now }
    ensures { result ≡ word_at bytes.now at }
{
    u32::from_le_bytes([bytes[at], bytes[at + 1], bytes[at + 2], bytes[at + 3]])
}

// Stores the bytes of a pixel from `at` on.
fn put_word(bytes: &mut [u8], at: usize, w: u32)
    requires { at + pixel_lanes ≤ length bytes.old }
    ensures { bytes.new ≡ put_word bytes.old at w }
{
    // Kept: four stores. copy_from_slice tests whether the two places overlap, and the compiler then makes no vectors.
    let [p, q, s, t] = w.to_le_bytes();
    bytes[at] = p;
    bytes[at + 1] = q;
    bytes[at + 2] = s;
    bytes[at + 3] = t;
}

#[derive(Clone, Copy)]
struct Lanes {
    b: u8,
    g: u8,
    r: u8,
    a: u8,
}

// The lanes of a pixel in the order of a layout.
fn lanes_of(layout: PixelLayout, w: u32) -> Lanes
    ensures { LanesAre layout w result.b result.g result.r result.a }
{
    let [p, q, s, t] = w.to_le_bytes();
    match layout {
        PixelLayout::Rgba8 => Lanes {
            b: s,
            g: q,
            r: p,
            a: t,
        },
        PixelLayout::Argb8 => Lanes {
            b: t,
            g: s,
            r: q,
            a: p,
        },
        PixelLayout::Bgra8 => Lanes {
            b: p,
            g: q,
            r: s,
            a: t,
        },
    }
}

// The opaque pixel of three colours.
fn opaque(layout: PixelLayout, b: u8, g: u8, r: u8) -> u32
    ensures { result ≡ opaque_word layout b g r }
{
    match layout {
        PixelLayout::Rgba8 => u32::from_le_bytes([r, g, b, 255]),
        PixelLayout::Argb8 => u32::from_le_bytes([255, r, g, b]),
        PixelLayout::Bgra8 => u32::from_le_bytes([b, g, r, 255]),
    }
}

// ---- one colour

// One colour over another, for every alpha and with no case: at 0 it is the background's, at 255 the badge's. At most 255, and nothing is cut.
fn blend(alpha: u8, colour: u8, under: u8) -> u32
    ensures is { result ≡ blended alpha colour under }
    ensures small { result ≤ 255 }
{
    matte(colour, alpha) + matte(under, 255 - alpha)
}

// ---- a block of the badge: its colours in the background's order, an alpha of 255 among them, and beside these its own alphas, at every second place

fn turn(layout: PixelLayout, from: PixelLayout, badge: &[u8], alphas: &mut [u8], colours: &mut [u8])
    requires { TurnAsks badge.now alphas.old colours.old }
    ensures alphas { alphas.new ≡ filled_by (alpha_in from badge.now) (length badge.now) alphas.old }
    ensures colours { colours.new ≡ filled_by (colour_in layout from badge.now) (length badge.now) colours.old }
{
    for i in 0..badge.len() / PIXEL_LANES {
        let at = PIXEL_LANES * i;
        let l = lanes_of(from, word(badge, at));
        put_word(alphas, at, 65537 * l.a as u32);
        put_word(colours, at, opaque(layout, l.b, l.g, l.r));
    }
}

// The loop for each pair of layouts: named here, before the loop, the compiler makes a loop of each with the lanes' places written into it.
// Kept: with const parameters, or a closure for each layout, the nine pairs would be named here all the same.
fn turn_by(layout: PixelLayout, from: PixelLayout, badge: &[u8], a: &mut [u8], c: &mut [u8])
    requires { TurnAsks badge.now a.old c.old }
    ensures a { a.new ≡ filled_by (alpha_in from badge.now) (length badge.now) a.old }
    ensures c { c.new ≡ filled_by (colour_in layout from badge.now) (length badge.now) c.old }
{
    match layout {
        PixelLayout::Rgba8 => match from {
            PixelLayout::Rgba8 => turn(PixelLayout::Rgba8, PixelLayout::Rgba8, badge, a, c),
            PixelLayout::Argb8 => turn(PixelLayout::Rgba8, PixelLayout::Argb8, badge, a, c),
            PixelLayout::Bgra8 => turn(PixelLayout::Rgba8, PixelLayout::Bgra8, badge, a, c),
        },
        PixelLayout::Argb8 => match from {
            PixelLayout::Rgba8 => turn(PixelLayout::Argb8, PixelLayout::Rgba8, badge, a, c),
            PixelLayout::Argb8 => turn(PixelLayout::Argb8, PixelLayout::Argb8, badge, a, c),
            PixelLayout::Bgra8 => turn(PixelLayout::Argb8, PixelLayout::Bgra8, badge, a, c),
        },
        PixelLayout::Bgra8 => match from {
            PixelLayout::Rgba8 => turn(PixelLayout::Bgra8, PixelLayout::Rgba8, badge, a, c),
            PixelLayout::Argb8 => turn(PixelLayout::Bgra8, PixelLayout::Argb8, badge, a, c),
            PixelLayout::Bgra8 => turn(PixelLayout::Bgra8, PixelLayout::Bgra8, badge, a, c),
        },
    }
}

// ---- the background, two bytes a turn, all lanes alike: of two alphas of 255, matted by alphas that sum to 255, comes 255

// The two bytes from `at` on as a number.
fn pair(bytes: &[u8], at: usize) -> u16
    requires { at + 2 ≤ length bytes.now }
    ensures { result ≡ pair_at bytes.now at }
{
    u16::from_le_bytes([bytes[at], bytes[at + 1]])
}

// Stores the two bytes of a number from `at` on.
fn put_pair(bytes: &mut [u8], at: usize, v: u16)
    requires { at + 2 ≤ length bytes.old }
    ensures { bytes.new ≡ put_pair bytes.old at v }
{
    let [low, high] = v.to_le_bytes();
    bytes[at] = low;
    bytes[at + 1] = high;
}

// Two bytes of a badge over two of a background, by the alpha in the low byte of `alpha`.
fn blend_pair(alpha: u16, over: u16, under: u16) -> u16
    ensures { result ≡ blended_pair alpha over under }
{
    let [a, _] = alpha.to_le_bytes();
    let [over_low, over_high] = over.to_le_bytes();
    let [under_low, under_high] = under.to_le_bytes();
    let low = blend(a, over_low, under_low) as u8;
    let high = blend(a, over_high, under_high) as u8;
    u16::from_le_bytes([low, high])
}

fn blend_block(pixels: &mut [u8], alphas: &[u8], colours: &[u8])
    requires { BlockAsks pixels.old alphas.now colours.now }
    ensures { pixels.new ≡ blended_block pixels.old alphas.now colours.now }
{
    for i in 0..pixels.len() / 2 {
        let x = 2 * i;
        put_pair(
            pixels,
            x,
            blend_pair(pair(alphas, x), pair(colours, x), pair(pixels, x)),
        );
    }
}

// The badge laid on the background, block by block.
fn lay(layout: PixelLayout, pixels: &mut [u8], from: PixelLayout, badge: &[u8])
    requires { LayAsks layout pixels.old badge.now }
    ensures { pixels.new ≡ laid layout pixels.old from badge.now }
{
    let n = pixels.len();
    let mut alphas = [0u8; 256];
    let mut colours = [0u8; 256];
    for block in 0..n.div_ceil(256) {
        let at = 256 * block;
        let end = n.min(at + 256);
        turn_by(layout, from, &badge[at..end], &mut alphas, &mut colours);
        blend_block(&mut pixels[at..end], &alphas, &colours);
    }
}

// Numbers 1 and 3 in that order, each over both pictures; n and m are the bytes of the background and of the badge.
fn check_both(size: Dimensions, n: usize, badge_size: Dimensions, m: usize) -> Result<(), Refusal>
    ensures { answer_number result ≡ both_number size n badge_size m }
{
    if bad_size(size) {
        return Err(Refusal::InvalidDimensions);
    }
    if bad_size(badge_size) {
        return Err(Refusal::InvalidDimensions);
    }
    if wrong_length(n, size) {
        return Err(Refusal::PixelBufferMismatch);
    }
    if wrong_length(m, badge_size) {
        return Err(Refusal::PixelBufferMismatch);
    }
    Ok(())
}

fn other_size(a: Dimensions, b: Dimensions) -> bool
    ensures { result ≡ other_size a b }
{
    a != b
}

// Whether some pixel isn't opaque: a byte of all pixels' words and-ed is 255 exactly if each pixel's is. The compiler ands four pixels at once.
fn some_clear(layout: PixelLayout, pixels: &[u8]) -> bool
    requires { length pixels.now ≡ pixel_lanes * (length pixels.now / pixel_lanes) }
    ensures { result ≡ has_alpha layout pixels.now (length pixels.now / pixel_lanes) }
{
    let mut all = 4294967295u32;
    for i in 0..pixels.len() / PIXEL_LANES {
        all = all & word(pixels, PIXEL_LANES * i);
    }
    lanes_of(layout, all).a != 255
}

// Then 15 and 16.
fn check_badge(
    size: Dimensions,
    layout: PixelLayout,
    pixels: &[u8],
    badge_size: Dimensions,
    m: usize,
) -> Result<(), Refusal>
    ensures { answer_number result ≡ badge_number size layout pixels.now badge_size m }
{
    check_both(size, pixels.len(), badge_size, m)?;
    if other_size(size, badge_size) {
        return Err(Refusal::UnequalSizes);
    }
    if some_clear(layout, pixels) {
        return Err(Refusal::BackgroundNotOpaque);
    }
    Ok(())
}

// Lays a badge on an opaque background of the same size, in the background's place and layout; the badge may have another layout. A refusal leaves the
// background as it was. Rules out: 15 told before 3; a background that is not opaque written; the badge read in the background's layout; the two alphas exchanged.
pub fn lay_badge(
    size: Dimensions,
    layout: PixelLayout,
    pixels: &mut [u8],
    badge_size: Dimensions,
    badge_layout: PixelLayout,
    badge: &[u8],
) -> Result<(), Refusal>
    ensures number { answer_number result ≡ badge_number size layout pixels.old badge_size (length badge.now) }
    ensures pixels { pixels.new ≡ badge_out size layout pixels.old badge_size badge_layout badge.now }
{
    check_badge(size, layout, pixels, badge_size, badge.len())?;
    lay(layout, pixels, badge_layout, badge);
    Ok(())
}
