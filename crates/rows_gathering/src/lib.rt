// The sums of a block of columns of a row of pixels, where the width does not grow (SCOPE, "A row comes in"; the Rust: `sum` of Rescaler::import_row_shrink):
// two pixels a turn, their bytes in eight 16-bit sums. So written the compiler makes one vector of the eight.
#![tactic(auto)]

ghost use Rattle.std.specs.Prelude.{◌≡◌, cond, false, ◌+◌, ◌-◌, ◌*◌, ◌/◌, ◌%◌, ◌≤◌, ◌<◌, length};
ghost use Rattle.pixels.specs.Sizes.{pixel_lanes};
ghost use Rattle.rows.specs.Column.{start};
ghost use Rattle.rows.specs.Tones.{toned, toned_at};
ghost use Rattle.rows.specs.Inner.Import.{oct_at, Eight, byte_at, PixelAsks};
ghost use Rattle.rows_gathering.specs.Gathered.{every_second, block_columns, block_fits, summed, read_at, gathered_sums, gathered_pixels};
ghost use Rattle.rows_gathering.specs.Inner.{PixelsAsk, OneIs, ColumnAsks, step_sum, stored4, stored8, BlockFits, BlockAsks, Begins};

use pixels::PIXEL_LANES;
use pixels_layout::PixelLayout;
use rows::{Alpha, Column, Oct, Sharing, add8, tone, zero8};

// ---- a byte

// Byte k of pixel x, by its pixel's alpha with `own` or-ed to it.
// Kept: that pixels are in a row, and columns in it, is said of both, and no struct holds a row: PixelAsks, PixelsAsk and ColumnAsks stay in the contracts.
fn toned_byte(row: &[u8], x: usize, k: usize, alpha: u8, own: u16) -> u16
    requires pixel_asks { PixelAsks row.now x }
    requires k_lt_pixel_lanes { k < pixel_lanes }
    ensures { result ≡ toned (byte_at row.now k x) alpha own }
{
    tone(row[PIXEL_LANES * x + k], alpha, own) as u16
}

// The same as it stands.
fn plain_byte(row: &[u8], x: usize, k: usize) -> u16
    requires pixel_asks { PixelAsks row.now x }
    requires k_lt_pixel_lanes { k < pixel_lanes }
    ensures { result ≡ byte_at row.now k x }
{
    row[PIXEL_LANES * x + k] as u16
}

// The one or the other.
fn byte(row: &[u8], x: usize, k: usize, plain: bool, alpha: u8, own: u16) -> u16
    requires pixel_asks { PixelAsks row.now x }
    requires k_lt_pixel_lanes { k < pixel_lanes }
    ensures { result ≡ cond plain (byte_at row.now k x) (toned (byte_at row.now k x) alpha own) }
{
    if plain {
        return plain_byte(row, x, k);
    }
    toned_byte(row, x, k, alpha, own)
}

// ---- pixels

// Pixels x and x + 1. `place` is the alpha's where it is asked for: a constant, see `pairs`.
fn pair(row: &[u8], x: usize, plain: bool, place: usize, alpha: Alpha) -> Oct
    requires pixels_ask { PixelsAsk row.now x 2 }
    requires place_lt_pixel_lanes { place < pixel_lanes }
    requires place_is { plain ≡ false → place ≡ alpha.place }
    ensures { Eight (λ h k. oct_at result h k ≡ read_at plain row.now alpha.place k (x + h)) }
{
    let y = x + 1;
    let o = alpha.own;
    let p = row[PIXEL_LANES * x + place];
    let q = row[PIXEL_LANES * y + place];
    Oct {
        a: byte(row, x, 0, plain, p, o.a),
        b: byte(row, x, 1, plain, p, o.b),
        c: byte(row, x, 2, plain, p, o.c),
        d: byte(row, x, 3, plain, p, o.d),
        e: byte(row, y, 0, plain, q, o.a),
        f: byte(row, y, 1, plain, q, o.b),
        g: byte(row, y, 2, plain, q, o.c),
        h: byte(row, y, 3, plain, q, o.d),
    }
}

// Pixel x alone, the first of two; the second is the same by an alpha of 0, so that the eight are made alike. That 0 is read from the table: one that the
// compiler sees makes two vectors of them.
// Kept beside plain_one, whose second four are no bytes of the row.
fn toned_one(row: &[u8], x: usize, alpha: Alpha) -> Oct
    requires { PixelsAsk row.now x 1 }
    ensures { OneIs (toned_at row.now alpha.place) x result }
{
    let o = alpha.own;
    let p = row[PIXEL_LANES * x + alpha.place];
    let none = o.b;
    let q = none as u8;
    Oct {
        a: toned_byte(row, x, 0, p, o.a),
        b: toned_byte(row, x, 1, p, o.b),
        c: toned_byte(row, x, 2, p, o.c),
        d: toned_byte(row, x, 3, p, o.d),
        e: toned_byte(row, x, 0, q, none),
        f: toned_byte(row, x, 1, q, none),
        g: toned_byte(row, x, 2, q, none),
        h: toned_byte(row, x, 3, q, none),
    }
}

// The same as it stands.
fn plain_one(row: &[u8], x: usize) -> Oct
    requires { PixelsAsk row.now x 1 }
    ensures { OneIs (byte_at row.now) x result }
{
    Oct {
        a: plain_byte(row, x, 0),
        b: plain_byte(row, x, 1),
        c: plain_byte(row, x, 2),
        d: plain_byte(row, x, 3),
        e: 0,
        f: 0,
        g: 0,
        h: 0,
    }
}

// ---- a column

// The pairs of a column's pixels, as they stand or matted. How, and where the alpha stands, are constants: a place that varies makes no vector.
// Kept: the turns are counted by m, since those counted in ones make vectors over turns, which are slower.
fn pairs<const PLAIN: bool, const PLACE: usize>(
    row: &[u8],
    from: usize,
    count: usize,
    m: usize,
    alpha: Alpha,
) -> Oct
    requires column_asks { ColumnAsks row.now from count m }
    requires place_lt_pixel_lanes { PLACE < pixel_lanes }
    requires place_is { PLAIN ≡ false → PLACE ≡ alpha.place }
    ensures { Eight (λ h k. oct_at result h k ≡ step_sum (read_at PLAIN row.now alpha.place k) from h (count / 2)) }
{
    let limit = count * m;
    let mut sum = zero8();
    let mut x = from;
    let mut got = m;
    while got < limit {
        got += m;
        got += m;
        sum = add8(sum, pair(row, x, PLAIN, PLACE, alpha));
        x += 2;
    }
    sum
}

// By how bytes are read.
fn pairs_by(row: &[u8], from: usize, count: usize, m: usize, plain: bool, alpha: Alpha) -> Oct
    requires { ColumnAsks row.now from count m }
    ensures { Eight (λ h k. oct_at result h k ≡ step_sum (read_at plain row.now alpha.place k) from h (count / 2)) }
{
    if plain {
        return pairs::<true, 0>(row, from, count, m, alpha);
    }
    if alpha.place == 0 {
        return pairs::<false, 0>(row, from, count, m, alpha);
    }
    pairs::<false, 3>(row, from, count, m, alpha)
}

fn one(row: &[u8], x: usize, plain: bool, alpha: Alpha) -> Oct
    requires { PixelsAsk row.now x 1 }
    ensures { OneIs (read_at plain row.now alpha.place) x result }
{
    if plain {
        return plain_one(row, x);
    }
    toned_one(row, x, alpha)
}

// A column's pixels: its pairs, and its last one where their number is odd.
fn column_sums(row: &[u8], from: usize, count: usize, m: usize, plain: bool, alpha: Alpha) -> Oct
    requires { ColumnAsks row.now from count m }
    ensures { Eight (λ h k. oct_at result h k ≡ every_second (read_at plain row.now alpha.place k) from count h) }
{
    let sum = pairs_by(row, from, count, m, plain, alpha);
    if count % 2 == 0 {
        return sum;
    }
    add8(sum, one(row, from + count - 1, plain, alpha))
}

// ---- a block of columns

// Four sums from place i on.
fn put4(sums: &mut [u16; 256], i: usize, a: u16, b: u16, c: u16, d: u16)
    requires { i + 4 ≤ 256 }
    ensures { sums.new ≡ stored4 sums.old i a b c d }
{
    sums[i] = a;
    sums[i + 1] = b;
    sums[i + 2] = c;
    sums[i + 3] = d;
}

// The sums of column k of the block. From an array the eight come back as one vector.
fn put8(sums: &mut [u16; 256], k: usize, s: Oct)
    requires { k < 32 }
    ensures { sums.new ≡ stored8 sums.old k s }
{
    put4(sums, 8 * k, s.a, s.b, s.c, s.d);
    put4(sums, 8 * k + 4, s.e, s.f, s.g, s.h);
}

// What stands before column `first`.
fn begin(n: usize, m: usize, first: usize) -> Column
    requires { BlockFits n m first }
    ensures { Begins n m first result.to result.over }
{
    let x = (first * n + (m - 1)) / m;
    Column {
        from: x,
        to: x,
        over: x * m - first * n,
    }
}

// How many columns the block has. Rules out: 32 where fewer are left; the columns before it counted.
pub fn block_columns(m: usize, first: usize) -> usize
    ensures { result ≡ block_columns m first }
{
    if m <= first {
        return 0;
    }
    if m - first < 32 {
        return m - first;
    }
    32
}

// That the array has its length: told to proofs alone of an array by value, which the compiler takes away.
fn whole(sums: [u16; 256])
    ensures { length sums ≡ 256 }
{}

// Every column of the block. How many pixels they have.
// Kept: n beside the row, as gather_block, which is public, has it.
fn gather(
    row: &[u8],
    n: usize,
    m: usize,
    first: usize,
    plain: bool,
    alpha: Alpha,
    sums: &mut [u16; 256],
) -> usize
    requires block_asks { BlockAsks row.now n m first }
    requires sums_len { length sums.old ≡ 256 }
    ensures sums { sums.new ≡ summed (read_at plain row.now alpha.place) n m first sums.old }
    ensures pixels { result ≡ start n m (first + block_columns m first) - start n m first }
{
    let columns = Sharing::new(n, m);
    let count = block_columns(m, first);
    let mut c = begin(n, m, first);
    let x = c.to;
    for k in 0..count {
        c = columns.next(c);
        put8(
            sums,
            k,
            column_sums(row, c.from, c.to - c.from, m, plain, alpha),
        );
    }
    c.to - x
}

// Whether there is a block: see the definition. Rules out: a column of 513 pixels; a side of 16385.
pub fn block_fits(n: usize, m: usize, first: usize, bytes: usize) -> bool
    ensures { result ≡ block_fits n m first bytes }
{
    if n < m {
        return false;
    }
    if 16384 < n {
        return false;
    }
    if 512 * m <= n {
        return false;
    }
    if m <= first {
        return false;
    }
    bytes == PIXEL_LANES * n
}

// The sums of the pixels of up to 32 columns from column `first` on, and how many pixels these are; each byte as it stands, or matted by its pixel's alpha, the
// alpha itself not. Rules out: the last pixel of an odd column left out; a pixel matted by the alpha of the one before it.
pub fn gather_block(
    layout: PixelLayout,
    plain: bool,
    n: usize,
    m: usize,
    first: usize,
    row: &[u8],
    sums: &mut [u16; 256],
) -> usize
    ensures sums { sums.new ≡ gathered_sums layout plain n m first row.now sums.old }
    ensures pixels { result ≡ gathered_pixels n m first (length row.now) }
{
    if !block_fits(n, m, first, row.len()) {
        return 0;
    }
    whole(*sums);
    gather(row, n, m, first, plain, Alpha::of(layout), sums)
}
