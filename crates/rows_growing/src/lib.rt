// A picture's row whose width grows (SCOPE, "A row comes in"; the Rust: Rescaler::import_row of geometry.rs): matted as its bytes are read, the four lanes
// at once. Within a pair of pixels a column is the one before less (left - right) × step; products are made only where a pixel is passed. Work values wrap.
//
// What keeps the four lanes one vector: places that are constants, a copy of the loop for each layout (bytes at places that vary are read one by one); Quads
// assigned one by one (a struct of several is taken apart); the alpha matted too, by a 255 out of a table (one that the compiler sees makes that lane unlike
// the others); remainders that change nothing and tell how small a factor is (one product of 16 bits then does for six steps in 32).
#![tactic(auto)]

ghost use Rattle.std.specs.Prelude.{◌≡◌, ◌+◌, ◌*◌, ◌/◌, ◌≤◌, ◌<◌, length};
ghost use Rattle.arithmetic.specs.Word.{wrap_add, wrap_sub, wrap_mul};
ghost use Rattle.pixels.specs.Sizes.{max_side, pixel_lanes};
ghost use Rattle.pixels.specs.Refusals.{answer_number};
ghost use Rattle.pixels_layout.specs.Layout.{places_of};
ghost use Rattle.rows_tests.specs.Tests.{import_number};
ghost use Rattle.rows.specs.Inner.Import.{at, Four, stored, byte_at, lane_bytes, PixelAsks, Within, written_row, RowAsks};
ghost use Rattle.rows_growing.specs.Growing.{grown_half};
ghost use Rattle.rows_growing.specs.Inner.{ShareAsks, BetweenAsks, GrowAsks, placed};

use arithmetic::wrapping_mul;
use pixels::{PIXEL_LANES, Refusal};
use pixels_layout::{PixelLayout, Places};
use rows::{Mask, Quad, add4, own_at, sub4, times4};
use rows_tests::check_import;

// ---- a pixel

// What is or-ed to the alpha for a colour, nothing, and for the alpha itself, all bits.
#[derive(Clone, Copy)]
struct Masks {
    colour: Mask,
    alpha: Mask,
    ghost colour_is: { colour.bits ≡ 0 },
    ghost alpha_is: { alpha.bits ≡ 255 },
}

impl Masks {
    // The alpha stands first or last. Its place is read from a table at run time, so that the compiler does not see what is or-ed. Made without `new`, which takes
    // a remainder.
    fn of(layout: PixelLayout) -> Masks {
        let p = layout.places();
        let own = own_at(p.a);
        let none = Mask { bits: own.b };
        let all = Mask {
            bits: own.a + own.d,
        };
        Masks {
            colour: none,
            alpha: all,
        }
    }
}

// Byte k of pixel x.
// Kept: that a pixel is in a row is said of both, and no struct holds a row: PixelAsks, and RowAsks below, stay in the contracts.
fn byte(row: &[u8], x: usize, k: usize) -> u8
    requires pixel_asks { PixelAsks row.now x }
    requires k_lt_pixel_lanes { k < pixel_lanes }
    ensures { result ≡ byte_at row.now k x }
{
    row[PIXEL_LANES * x + k]
}

// Pixel x as lanes B, G, R, A.
fn read(row: &[u8], x: usize, p: Places, masks: Masks) -> Quad
    requires pixel_asks { PixelAsks row.now x }
    requires within { Within p }
    ensures { Four (λ k. at result k ≡ lane_bytes p row.now k x) }
{
    let alpha = byte(row, x, p.a);
    Quad {
        a: masks.colour.tone(byte(row, x, p.b), alpha),
        b: masks.colour.tone(byte(row, x, p.g), alpha),
        c: masks.colour.tone(byte(row, x, p.r), alpha),
        d: masks.alpha.tone(alpha, alpha),
    }
}

// ---- two pixels

// So many parts of a byte. The last remainder keeps the compiler from joining two such products, for which it would first have to sort their lanes.
fn share(byte: u32, parts: u32) -> u32
    requires { ShareAsks byte parts }
    ensures { result ≡ wrap_mul byte parts }
{
    wrapping_mul(byte % 256, parts % 32768) % 4194304
}

// acc parts of the left pixel, rest of the right one.
fn between(left: Quad, right: Quad, acc: u32, rest: u32) -> Quad
    requires { BetweenAsks left acc rest }
    ensures { Four (λ k. at result k ≡ wrap_add (wrap_mul (at left k) acc) (wrap_mul (at right k) rest)) }
{
    let kept = Quad {
        a: share(left.a, acc),
        b: share(left.b, acc),
        c: share(left.c, acc),
        d: share(left.d, acc),
    };
    add4(kept, times4(right, rest % 32768))
}

// What a column is less than the one before it.
fn fall_of(left: Quad, right: Quad, step: u32) -> Quad
    ensures { Four (λ k. at result k ≡ wrap_mul (wrap_sub (at left k) (at right k)) step) }
{
    times4(sub4(left, right), step)
}

// Stores the four values of column j.
// Kept, as that of rows_pixels: one for both would be public, and would test anew the bounds that are proved here.
fn put4(half: &mut [u32], j: usize, v: Quad)
    requires { (pixel_lanes * j + pixel_lanes ≤ length half.old) × (j < max_side) }
    ensures { half.new ≡ stored half.old j v }
{
    let i = PIXEL_LANES * j;
    half[i] = v.a;
    half[i + 1] = v.b;
    half[i + 2] = v.c;
    half[i + 3] = v.d;
}

// ---- every column. The Rust: Rescaler::import_row_expand; libwebp: WebPRescalerImportRowExpand_C.

// A row begun: `right` is its second pixel, and the first column is `value`, the next one less `fall`.
#[derive(Clone, Copy)]
struct Begun {
    right: Quad,
    fall: Quad,
    value: Quad,
}

// By places that are constants. Two pixels share span parts, and a column goes on by step of them.
// Kept: a row comes begun. Begun here, by constants, its lanes would keep the order of the bytes, and the store of each column would sort them.
fn grow_by<const B: usize, const G: usize, const R: usize, const A: usize>(
    row: &[u8],
    m: usize,
    masks: Masks,
    begun: Begun,
    half: &mut [u32],
)
    requires { GrowAsks row.now half.old (placed B G R A) (length row.now / pixel_lanes) m begun.right begun.fall begun.value }
    ensures { half.new ≡ written_row (placed B G R A) (length row.now / pixel_lanes) m row.now half.old }
{
    let p = Places {
        b: B,
        g: G,
        r: R,
        a: A,
    };
    let span = (m - 1) as u32;
    let step = (row.len() / PIXEL_LANES - 1) as u32;
    let mut right = begun.right;
    let mut fall = begun.fall;
    let mut value = begun.value;
    let mut x = 0usize;
    let mut acc = span;
    let mut j = 0usize;
    // Kept: as a `for` with a break at its end the compiler makes no vector of the lanes.
    loop {
        put4(half, j, value);
        j += 1;
        if j >= m {
            break;
        }
        if acc >= step {
            acc = acc - step;
            value = sub4(value, fall);
            continue;
        }
        acc = acc + span - step;
        let next = read(row, x + 2, p, masks);
        value = between(right, next, acc, span - acc);
        fall = fall_of(right, next, step);
        right = next;
        x += 1;
    }
}

// By the layout.
fn grow(layout: PixelLayout, row: &[u8], m: usize, half: &mut [u32])
    requires row_asks { RowAsks row.now half.old (length row.now / pixel_lanes) m (places_of layout) }
    requires grows { length row.now / pixel_lanes < m }
    ensures { half.new ≡ written_row (places_of layout) (length row.now / pixel_lanes) m row.now half.old }
{
    let p = layout.places();
    let masks = Masks::of(layout);
    let n = row.len() / PIXEL_LANES;
    let left = read(row, 0, p, masks);
    // The second pixel; of one pixel, itself: no pixel past the crop is read. The Rust: `right` of Rescaler::import_row_expand.
    let right = read(row, 1 % n, p, masks);
    let fall = fall_of(left, right, (n - 1) as u32);
    let value = between(left, right, (m - 1) as u32, 0);
    let begun = Begun { right, fall, value };
    match layout {
        PixelLayout::Rgba8 => grow_by::<2, 1, 0, 3>(row, m, masks, begun, half),
        PixelLayout::Argb8 => grow_by::<3, 2, 1, 0>(row, m, masks, begun, half),
        PixelLayout::Bgra8 => grow_by::<0, 1, 2, 3>(row, m, masks, begun, half),
    }
}

// One row of a picture's crop, matted as it is read, into a half, where the width grows; where it does not, nothing is written.
// Rules out: the parts of the two pixels exchanged; a pixel past the crop read; two lanes exchanged.
pub fn widen_row(
    layout: PixelLayout,
    crop_width: u32,
    target_width: u32,
    row: &[u8],
    half: &mut [u32],
) -> Result<(), Refusal>
    ensures number { answer_number result ≡ import_number pixel_lanes crop_width target_width (length row.now) (length half.old) }
    ensures half { half.new ≡ grown_half layout crop_width target_width row.now half.old }
{
    check_import(
        PIXEL_LANES as u32,
        crop_width,
        target_width,
        row.len(),
        half.len(),
    )?;
    if crop_width < target_width {
        grow(layout, row, target_width as usize, half);
    }
    Ok(())
}
