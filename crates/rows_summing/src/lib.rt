// The sums of a block of columns of a row of pixels, where the width does not grow (SCOPE, "A row comes in"; the Rust: `sum` of Rescaler::import_row_shrink). An
// opaque block needs no products: its bytes are summed as they stand, and its alphas' sums tell whether it is one.
#![tactic(auto)]

ghost use Rattle.std.specs.Prelude.{◌≡◌, true, ◌≤◌, ◌<◌, length};
ghost use Rattle.arithmetic.specs.Sum.{sum};
ghost use Rattle.pixels.specs.Sizes.{pixel_lanes};
ghost use Rattle.rows_summing.specs.Sums.{block_fits, block_sums};
ghost use Rattle.rows_summing.specs.Inner.{alpha_sum};

use pixels::PIXEL_LANES;
use pixels_layout::PixelLayout;
use rows_gathering::{block_columns, block_fits, gather_block};

// Kept: it tells that an entry fits 16 bits, which the array behind a reference does not.
fn wide(x: u16) -> usize
    ensures is { result ≡ x }
    ensures small { result ≤ 65535 }
{
    x as usize
}

// The sum of all alphas of `count` columns.
fn alphas(sums: &[u16; 256], count: usize, place: usize) -> usize
    requires { (count ≤ 32) × (place < pixel_lanes) }
    ensures { result ≡ sum (alpha_sum sums.now place) 0 count }
{
    let mut total = 0usize;
    for k in 0..count {
        let i = 8 * k + place;
        total = total + wide(sums[i]) + wide(sums[i + 4]);
    }
    total
}

// The bytes as they stand are tried where the pixel that the block begins in is opaque. Where all alphas come to 255 for each pixel, every one is 255, since none is more.
// Kept: one call in a loop of two turns, of which the compiler makes one copy, in place.
fn sum_columns(
    layout: PixelLayout,
    n: usize,
    m: usize,
    first: usize,
    row: &[u8],
    sums: &mut [u16; 256],
)
    requires { block_fits n m first (length row.now) ≡ true }
    ensures { sums.new ≡ block_sums layout n m first row.now sums.old }
{
    let place = layout.alpha_byte_offset();
    let count = block_columns(m, first);
    let mut plain = row[PIXEL_LANES * (first * n / m) + place] == 255;
    loop {
        let seen = gather_block(layout, plain, n, m, first, row, sums);
        if !plain {
            return;
        }
        if alphas(sums, count, place) == 255 * seen {
            return;
        }
        plain = false;
    }
}

// The sums of the pixels of up to 32 columns from column `first` on, each byte matted by its pixel's alpha, the alpha itself not.
// Rules out: an opaque block judged by its first pixel; alphas of 254 taken for opaque.
pub fn sum_block(
    layout: PixelLayout,
    n: usize,
    m: usize,
    first: usize,
    row: &[u8],
    sums: &mut [u16; 256],
)
    ensures { sums.new ≡ block_sums layout n m first row.now sums.old }
{
    if !block_fits(n, m, first, row.len()) {
        return;
    }
    sum_columns(layout, n, m, first, row, sums);
}
