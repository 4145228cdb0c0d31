// A picture's row comes in (SCOPE, "A row comes in"; the Rust: Rescaler::import_row of geometry.rs): matted as its bytes are read, the four bytes of a pixel at
// once and in their order; a column's end puts them into lanes. Work values wrap.
#![tactic(auto)]

ghost use Rattle.std.specs.Prelude.{◌≡◌, ◌+◌, ◌-◌, ◌*◌, ◌/◌, ◌%◌, ◌≤◌, ◌<◌, length, get_or};
ghost use Rattle.arithmetic.specs.Sum.{sum};
ghost use Rattle.arithmetic.specs.Word.{wrap_add};
ghost use Rattle.pixels.specs.Refusals.{answer_number};
ghost use Rattle.pixels.specs.Sizes.{max_side, pixel_lanes};
ghost use Rattle.pixels_layout.specs.Layout.{places_of};
ghost use Rattle.rows_tests.specs.Tests.{import_number};
ghost use Rattle.rows.specs.Tones.{toned_at};
ghost use Rattle.rows.specs.Inner.Import.{at, Four, stored, PixelAsks, Within, written_row, RowAsks};
ghost use Rattle.rows.specs.Import.{import_half};
ghost use Rattle.rows_pixels.specs.Inner.{InLanes, in_lanes, TotalAsks, EndAsks, end_value, end_carry, FillAsks, PairAsks, Filled, Ready, BlockAsks};

use arithmetic::frac;
use pixels::{PIXEL_LANES, Refusal};
use pixels_layout::{PixelLayout, Places};
use rows::{Alpha, Column, Quad, Sharing, add4, finish, times4, tone, zero4};
use rows_growing::widen_row;
use rows_summing::sum_block;
use rows_tests::check_import;

// ---- a pixel

// The four bytes of pixel x, in their order.
// Kept: that a pixel is in a row is said of both, and no struct holds a row: PixelAsks, and RowAsks below, stay in the contracts.
fn one(row: &[u8], x: usize, alpha: Alpha) -> Quad
    requires { PixelAsks row.now x }
    ensures { Four (λ k. at result k ≡ toned_at row.now alpha.place k x) }
{
    let i = PIXEL_LANES * x;
    let o = alpha.own;
    let by = row[i + alpha.place];
    Quad {
        a: tone(row[i], by, o.a),
        b: tone(row[i + 1], by, o.b),
        c: tone(row[i + 2], by, o.c),
        d: tone(row[i + 3], by, o.d),
    }
}

// A column's total: its carry, its last pixel, and the pixels from `from` on before that.
fn total_of(row: &[u8], from: usize, to: usize, alpha: Alpha, carry: Quad, last: Quad) -> Quad
    requires { TotalAsks row.now from to }
    ensures { Four (λ k. at result k ≡ wrap_add (at carry k) (at last k + sum (toned_at row.now alpha.place k) from (to - 1 - from))) }
{
    let mut total = add4(carry, last);
    for x in from..to - 1 {
        total = add4(total, one(row, x, alpha));
    }
    total
}

// ---- a column

// What stands before the first column.
const FIRST: Column = Column {
    from: 0,
    to: 0,
    over: 0,
};

// From bytes' order to lanes B, G, R, A.
fn in_lanes(bytes: Quad, p: Places) -> Quad
    requires { Within p }
    ensures { InLanes p (at bytes) result }
{
    let t = [bytes.a, bytes.b, bytes.c, bytes.d];
    let b = p.b;
    let g = p.g;
    let r = p.r;
    let a = p.a;
    Quad {
        a: t[b],
        b: t[g],
        c: t[r],
        d: t[a],
    }
}

// Stores the four values of column j.
// Kept, as that of rows_growing: one for both would be public, and would test anew the bounds that are proved here.
fn put4(half: &mut [u32], j: usize, v: Quad)
    requires { (pixel_lanes * j + pixel_lanes ≤ length half.old) × (j < max_side) }
    ensures { half.new ≡ stored half.old j v }
{
    let i = PIXEL_LANES * j;
    half[i] = v.a;
    half[i + 1] = v.b;
    half[i + 2] = v.c;
    half[i + 3] = v.d;
}

// Stores column j, of the total that carry and pixels make and of its last pixel; what it carries to the next. The remainder changes nothing and tells how
// small the factor is: one multiplication of 16 bits then makes the product.
fn end_column(
    half: &mut [u32],
    j: usize,
    m: usize,
    scale: u32,
    over: usize,
    total: Quad,
    last: Quad,
    p: Places,
) -> Quad
    requires { EndAsks half.old j m over p }
    ensures carry { Four (λ k. at result k ≡ end_carry scale over last k) }
    ensures half { half.new ≡ stored half.old j (in_lanes p (end_value m over total last)) }
{
    let w = m as u32;
    let o = (over % 16384) as u32;
    let a = finish(w, scale, o, total.a, last.a);
    let b = finish(w, scale, o, total.b, last.b);
    let c = finish(w, scale, o, total.c, last.c);
    let d = finish(w, scale, o, total.d, last.d);
    let bytes = Quad {
        a: a.value,
        b: b.value,
        c: c.value,
        d: d.value,
    };
    put4(half, j, in_lanes(bytes, p));
    Quad {
        a: a.carry,
        b: b.carry,
        c: c.carry,
        d: d.carry,
    }
}

// ---- a block of columns, whose pixels are summed together

// The columns of a block.
const BLOCK: usize = 32;

// Sums the block that column j begins, if it begins one.
fn refill(layout: PixelLayout, row: &[u8], m: usize, j: usize, sums: &mut [u16; 256])
    requires fill_asks { FillAsks row.now (length row.now / pixel_lanes) m j }
    requires ready { Ready row.now (places_of layout).a (length row.now / pixel_lanes) m j sums.old }
    ensures { Filled row.now (places_of layout).a (length row.now / pixel_lanes) m (j - j % 32) sums.new }
{
    if j % BLOCK == 0 {
        sum_block(layout, row.len() / PIXEL_LANES, m, j, row, sums);
    }
}

// Sum i of a block and the one four places on: every second pixel of a column from the first on, and from the second on.
fn pair(sums: &[u16; 256], i: usize) -> u32
    requires { PairAsks sums.now i }
    ensures { result ≡ get_or sums.now i 0 + get_or sums.now (i + 4) 0 }
{
    sums[i] as u32 + sums[i + 4] as u32
}

// The pixels of column k of a block summed, bytes in their order.
fn both(sums: &[u16; 256], k: usize) -> Quad
    requires k_bound { k < 32 }
    requires four { Four (λ i. PairAsks sums.now (8 * k + i)) }
    ensures { Four (λ i. at result i ≡ get_or sums.now (8 * k + i) 0 + get_or sums.now (8 * k + i + 4) 0) }
{
    let i = 8 * k;
    Quad {
        a: pair(sums, i),
        b: pair(sums, i + 1),
        c: pair(sums, i + 2),
        d: pair(sums, i + 3),
    }
}

// ---- a row. The Rust: Rescaler::import_row_shrink; libwebp: WebPRescalerImportRowShrink_C. Its `sum` carries on here as `carry`.

// Columns of one pixel or two, or of any number, pixel by pixel.
fn shrink_pixels(layout: PixelLayout, row: &[u8], m: usize, half: &mut [u32])
    requires row_asks { RowAsks row.now half.old (length row.now / pixel_lanes) m (places_of layout) }
    requires m_le_n { m ≤ length row.now / pixel_lanes }
    ensures { half.new ≡ written_row (places_of layout) (length row.now / pixel_lanes) m row.now half.old }
{
    let scale = frac(1, m as u32);
    let p = layout.places();
    let alpha = Alpha::of(layout);
    let columns = Sharing::new(row.len() / PIXEL_LANES, m);
    let mut c = FIRST;
    let mut carry = zero4();
    for j in 0..m {
        c = columns.next(c);
        let last = one(row, c.to - 1, alpha);
        let total = total_of(row, c.from, c.to, alpha, carry, last);
        carry = end_column(half, j, m, scale, c.over, total, last, p);
    }
}

// Columns summed block by block.
fn shrink_blocks(layout: PixelLayout, row: &[u8], m: usize, half: &mut [u32])
    requires row_asks { RowAsks row.now half.old (length row.now / pixel_lanes) m (places_of layout) }
    requires block_asks { BlockAsks (length row.now / pixel_lanes) m }
    ensures { half.new ≡ written_row (places_of layout) (length row.now / pixel_lanes) m row.now half.old }
{
    let scale = frac(1, m as u32);
    let p = layout.places();
    let alpha = Alpha::of(layout);
    let columns = Sharing::new(row.len() / PIXEL_LANES, m);
    let mut sums = [0u16; 256];
    let mut c = FIRST;
    let mut carry = zero4();
    for j in 0..m {
        refill(layout, row, m, j, &mut sums);
        c = columns.next(c);
        let total = add4(carry, both(&sums, j % BLOCK));
        let last = one(row, c.to - 1, alpha);
        carry = end_column(half, j, m, scale, c.over, total, last, p);
    }
}

// The same where every column has as many pixels and shares none: nothing is carried.
fn shrink_whole(layout: PixelLayout, row: &[u8], m: usize, half: &mut [u32])
    requires row_asks { RowAsks row.now half.old (length row.now / pixel_lanes) m (places_of layout) }
    requires block_asks { BlockAsks (length row.now / pixel_lanes) m }
    requires even { length row.now / pixel_lanes % m ≡ 0 }
    ensures { half.new ≡ written_row (places_of layout) (length row.now / pixel_lanes) m row.now half.old }
{
    let p = layout.places();
    let mut sums = [0u16; 256];
    for j in 0..m {
        refill(layout, row, m, j, &mut sums);
        let bytes = times4(both(&sums, j % BLOCK), m as u32);
        put4(half, j, in_lanes(bytes, p));
    }
}

// Columns of one pixel or two, and of 512 or more, pixel by pixel; others block by block.
fn shrink_row(layout: PixelLayout, row: &[u8], m: usize, half: &mut [u32])
    requires row_asks { RowAsks row.now half.old (length row.now / pixel_lanes) m (places_of layout) }
    requires m_le_n { m ≤ length row.now / pixel_lanes }
    ensures { half.new ≡ written_row (places_of layout) (length row.now / pixel_lanes) m row.now half.old }
{
    let n = row.len() / PIXEL_LANES;
    let each = n / m;
    if each == 1 || each >= 512 {
        shrink_pixels(layout, row, m, half);
        return;
    }
    if n % m == 0 {
        shrink_whole(layout, row, m, half);
        return;
    }
    shrink_blocks(layout, row, m, half);
}

// One row of the crop, matted as it is read, into a half. A row as wide as the target goes the same way: matting changes it.
// The Rust: Rescaler::import_row; libwebp: WebPRescalerImportRow.
// Rules out: a colour that is not matted; two lanes exchanged; the whole last pixel taken off; sums of too many pixels; those of a block's first column.
pub fn import_row(
    layout: PixelLayout,
    crop_width: u32,
    target_width: u32,
    row: &[u8],
    half: &mut [u32],
) -> Result<(), Refusal>
    ensures number { answer_number result ≡ import_number pixel_lanes crop_width target_width (length row.now) (length half.old) }
    ensures half { half.new ≡ import_half layout crop_width target_width row.now half.old }
{
    if crop_width < target_width {
        return widen_row(layout, crop_width, target_width, row, half);
    }
    check_import(
        PIXEL_LANES as u32,
        crop_width,
        target_width,
        row.len(),
        half.len(),
    )?;
    shrink_row(layout, row, target_width as usize, half);
    Ok(())
}
