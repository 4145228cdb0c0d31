// A plane's row whose width grows (SCOPE, "Planes" and "A row comes in"; the Rust: Rescaler::import_row of geometry.rs with so many channels): each lane of
// a column in its turn. Work values wrap.
#![tactic(auto)]

ghost use Rattle.std.specs.Prelude.{◌≡◌, ◌<◌, ◌≤◌, length, slice_index};
ghost use Rattle.arithmetic.specs.Word.{wrap_add, wrap_sub, wrap_mul};
ghost use Rattle.pixels.specs.Refusals.{answer_number};
ghost use Rattle.rows_tests.specs.Tests.{import_number};
ghost use Rattle.rows_widening.specs.Widening.{widened_half};
ghost use Rattle.rows_widening.specs.Inner.{byte_of, set_all, PartAsks, between_value, BetweenAsks, StandAsks, StandIs, RowAsks, row_written};

use arithmetic::wrapping_mul;
use pixels::Refusal;
use rows_tests::check_import;
use std::num::{wrapping_add_u32, wrapping_sub_u32};

// Byte i as a number.
fn byte(row: &[u8], i: usize) -> u32
    requires { i < length row.now }
    ensures is { result ≡ slice_index row.now i }
    ensures small { result ≤ 255 }
{
    row[i] as u32
}

// Lane k of pixel x, times so many parts.
fn part(row: &[u8], lanes: usize, k: usize, x: usize, parts: usize) -> u32
    requires { PartAsks row.now lanes k x parts }
    ensures { result ≡ wrap_mul (byte_of lanes row.now k x) parts }
{
    wrapping_mul(byte(row, lanes * x + k), parts as u32)
}

// Where an output column stands between two pixels: acc of span parts are pixel x's, the rest the next one's.
#[derive(Clone, Copy)]
struct Stand {
    x: usize,
    acc: usize,
}

// One column on: by `step` of the parts, into the next pixel where the left one has fewer.
fn next_stand(span: usize, step: usize, s: Stand) -> Stand
    requires { StandAsks span step s.x s.acc }
    ensures { StandIs span step s.x s.acc result.x result.acc }
{
    if s.acc < step {
        return Stand {
            x: s.x + 1,
            acc: s.acc + span - step,
        };
    }
    Stand {
        x: s.x,
        acc: s.acc - step,
    }
}

// Every lane of a column, stored from place `at` on: acc parts of the pixel `left`, rest of the pixel `right`.
fn put_between(
    row: &[u8],
    lanes: usize,
    left: usize,
    right: usize,
    acc: usize,
    rest: usize,
    half: &mut [u32],
    at: usize,
)
    requires { BetweenAsks row.now lanes left right acc rest half.old at }
    ensures { half.new ≡ set_all half.old at (between_value lanes row.now left right acc rest) lanes }
{
    for k in 0..lanes {
        half[at + k] = wrapping_add_u32(
            part(row, lanes, k, left, acc),
            part(row, lanes, k, right, rest),
        );
    }
}

// Every column, its lanes together. The Rust: Rescaler::import_row_expand; libwebp: WebPRescalerImportRowExpand_C.
fn grow_lanes(row: &[u8], lanes: usize, n: usize, m: usize, half: &mut [u32])
    requires row_asks { RowAsks row.now half.old lanes n m }
    requires n_lt_m { n < m }
    ensures { half.new ≡ row_written lanes n m row.now half.old }
{
    let span = m - 1;
    let step = n - 1;
    // The way to the right pixel; of one pixel, to itself: no pixel past the crop is read.
    let one = 1 % n;
    let mut s = Stand {
        x: 0,
        acc: span + step,
    };
    for j in 0..m {
        s = next_stand(span, step, s);
        put_between(
            row,
            lanes,
            s.x,
            s.x + one,
            s.acc,
            span - s.acc,
            half,
            lanes * j,
        );
    }
}

// One lane of a column: acc parts of the pixel `left`, rest of the pixel `right`.
// Kept: beside the same of four lanes (rows_growing), since a trait with these calls as its methods is longer than they are.
fn between(left: u32, right: u32, acc: u32, rest: u32) -> u32
    ensures { result ≡ wrap_add (wrap_mul left acc) (wrap_mul right rest) }
{
    wrapping_add_u32(wrapping_mul(left, acc), wrapping_mul(right, rest))
}

// The difference modulo 2^32.
fn minus(x: u32, y: u32) -> u32
    ensures { result ≡ wrap_sub x y }
{
    wrapping_sub_u32(x, y)
}

// What a column is less than the one before it.
fn fall_of(left: u32, right: u32, step: u32) -> u32
    ensures { result ≡ wrap_mul (wrap_sub left right) step }
{
    wrapping_mul(minus(left, right), step)
}

// Every column of one lane. Within a pair of pixels a column is the one before less the fall; products are made only where a pixel is passed. The last column
// uses up the parts of the last pair. Of one pixel no column uses any parts: that row is not for here. Kept: no for, since columns are not counted: fewer jumps.
fn grow_lane(row: &[u8], n: usize, m: usize, half: &mut [u32])
    requires row_asks { RowAsks row.now half.old 1 n m }
    requires lt_n { (1 < n) × (n < m) }
    ensures { half.new ≡ row_written 1 n m row.now half.old }
{
    let span = (m - 1) as u32;
    let step = (n - 1) as u32;
    let left = byte(row, 0);
    let mut right = byte(row, 1);
    let mut value = between(left, right, span, 0);
    let mut fall = fall_of(left, right, step);
    let mut x = 0usize;
    let mut acc = span;
    let mut j = 0usize;
    loop {
        half[j] = value;
        j += 1;
        if acc >= step {
            acc = acc - step;
            value = minus(value, fall);
            continue;
        }
        if x + 2 >= n {
            break;
        }
        acc = acc + span - step;
        let next = byte(row, x + 2);
        value = between(right, next, acc, span - acc);
        fall = fall_of(right, next, step);
        right = next;
        x += 1;
    }
}

// Kept: RowAsks tells of the half too, and a struct that holds a &mut has no ghost field.
fn grow(row: &[u8], lanes: usize, n: usize, m: usize, half: &mut [u32])
    requires row_asks { RowAsks row.now half.old lanes n m }
    requires n_lt_m { n < m }
    ensures { half.new ≡ row_written lanes n m row.now half.old }
{
    if lanes == 1 && n > 1 {
        grow_lane(row, n, m, half);
        return;
    }
    grow_lanes(row, lanes, n, m, half);
}

// One row of a plane's crop into a half, where the width grows; where it does not, nothing is written.
// Rules out: the parts of the two pixels exchanged; a pixel past the crop read.
pub fn widen_plane_row(
    lanes: u32,
    crop_width: u32,
    target_width: u32,
    row: &[u8],
    half: &mut [u32],
) -> Result<(), Refusal>
    ensures number { answer_number result ≡ import_number lanes crop_width target_width (length row.now) (length half.old) }
    ensures half { half.new ≡ widened_half lanes crop_width target_width row.now half.old }
{
    check_import(lanes, crop_width, target_width, row.len(), half.len())?;
    if crop_width < target_width {
        grow(
            row,
            lanes as usize,
            crop_width as usize,
            target_width as usize,
            half,
        );
    }
    Ok(())
}
