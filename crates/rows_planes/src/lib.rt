// A plane's row comes in (SCOPE, "Planes" and "A row comes in"; the Rust: Rescaler::import_row of geometry.rs with so many channels): its lanes as they are,
// column after column, each lane of a column in its turn. Work values wrap.
#![tactic(auto)]

ghost use Rattle.std.specs.Prelude.{◌≡◌, ◌<◌, ◌≤◌, ◌++◌, length, drop};
ghost use Rattle.arithmetic.specs.Sum.{sum};
ghost use Rattle.arithmetic.specs.Table.{tabulate};
ghost use Rattle.pixels.specs.Refusals.{answer_number};
ghost use Rattle.rows_tests.specs.Tests.{import_number};
ghost use Rattle.rows_planes.specs.Planes.{plane_half};
ghost use Rattle.rows_widening.specs.Inner.{byte_of, set_all, RowAsks, row_written};
ghost use Rattle.rows_planes.specs.Inner.{SumAsks, column_value, column_carry, PutAsks};

use arithmetic::frac;
use pixels::Refusal;
use rows::{Column, Sharing, finish};
use rows_tests::check_import;
use rows_widening::widen_plane_row;
use std::num::wrapping_add_u32;

// The sum of lane k of `count` pixels from pixel `from` on, four a turn.
// Kept: the index i. Of turns counted by for the compiler makes two at once, and a plane of one lane takes a fifth more time.
fn lane_sum(row: &[u8], lanes: usize, k: usize, from: usize, count: usize) -> u32
    requires { SumAsks row.now lanes k from count }
    ensures { result ≡ sum (byte_of lanes row.now k) from count }
{
    let mut sum = 0u32;
    let mut p = lanes * from + k;
    let mut i = 0usize;
    while i + 3 < count {
        sum = sum
            + row[p] as u32
            + row[p + lanes] as u32
            + row[p + 2 * lanes] as u32
            + row[p + 3 * lanes] as u32;
        p += 4 * lanes;
        i += 4;
    }
    if count <= i {
        return sum;
    }
    sum += row[p] as u32;
    if count <= i + 1 {
        return sum;
    }
    sum += row[p + lanes] as u32;
    if count <= i + 2 {
        return sum;
    }
    sum + row[p + 2 * lanes] as u32
}

// Every lane of a column of `each` pixels or one more, stored from place `at` on; the carries of the lanes come in and go out. The pixels that every column
// has are summed apart: how many they are is the same for a whole row, so that their jumps are foreseen.
fn put_column<const LANES: usize>(
    row: &[u8],
    m: usize,
    scale: u32,
    each: usize,
    c: Column,
    carry: &mut [u32; LANES],
    half: &mut [u32],
    at: usize,
)
    requires { PutAsks row.now LANES m each c.from c.to c.over carry.old half.old at }
    ensures carry { carry.new ≡ tabulate (column_carry LANES row.now scale c.to c.over) LANES ++ drop LANES carry.old }
    ensures half { half.new ≡ set_all half.old at (column_value LANES row.now m c.from c.to c.over carry.old) LANES }
{
    for k in 0..LANES {
        let mut sum = wrapping_add_u32(carry[k], lane_sum(row, LANES, k, c.from, each));
        if c.to - c.from != each {
            sum = wrapping_add_u32(sum, row[LANES * (c.from + each) + k] as u32);
        }
        let last = row[LANES * (c.to - 1) + k] as u32;
        let e = finish(m as u32, scale, c.over as u32, sum, last);
        half[at + k] = e.value;
        carry[k] = e.carry;
    }
}

// Every column, its lanes together: a copy for each lane count, in which the lanes are no loop. The Rust: Rescaler::import_row_shrink; libwebp:
// WebPRescalerImportRowShrink_C.
fn shrink_lanes<const LANES: usize>(row: &[u8], n: usize, m: usize, half: &mut [u32])
    requires row_asks { RowAsks row.now half.old LANES n m }
    requires m_le_n { m ≤ n }
    ensures { half.new ≡ row_written LANES n m row.now half.old }
{
    let scale = frac(1, m as u32);
    let each = n / m;
    let sharing = Sharing::new(n, m);
    let mut carry = [0u32; LANES];
    let mut c = Column {
        from: 0,
        to: 0,
        over: 0,
    };
    for j in 0..m {
        c = sharing.next(c);
        put_column(row, m, scale, each, c, &mut carry, half, LANES * j);
    }
}

// The same of one lane. Kept: shrink_lanes::<1> takes a quarter to two thirds more time. Here the pixel that some columns have more is read in the one branch
// that also counts it.
fn shrink_lane(row: &[u8], n: usize, m: usize, half: &mut [u32])
    requires row_asks { RowAsks row.now half.old 1 n m }
    requires m_le_n { m ≤ n }
    ensures { half.new ≡ row_written 1 n m row.now half.old }
{
    let scale = frac(1, m as u32);
    let each = n / m;
    let rest = n % m;
    let mut x = 0usize;
    let mut over = 0usize;
    let mut carry = 0u32;
    for j in 0..m {
        let mut sum = wrapping_add_u32(carry, lane_sum(row, 1, 0, x, each));
        x += each;
        if over < rest {
            sum = wrapping_add_u32(sum, row[x] as u32);
            x += 1;
            over += m;
        }
        over -= rest;
        let e = finish(m as u32, scale, over as u32, sum, row[x - 1] as u32);
        half[j] = e.value;
        carry = e.carry;
    }
}

// By the lane count. Kept: RowAsks tells of the half too, and a struct that holds a &mut has no ghost field.
fn shrink(row: &[u8], lanes: usize, n: usize, m: usize, half: &mut [u32])
    requires row_asks { RowAsks row.now half.old lanes n m }
    requires m_le_n { m ≤ n }
    ensures { half.new ≡ row_written lanes n m row.now half.old }
{
    match lanes {
        1 => shrink_lane(row, n, m, half),
        2 => shrink_lanes::<2>(row, n, m, half),
        3 => shrink_lanes::<3>(row, n, m, half),
        _ => shrink_lanes::<4>(row, n, m, half),
    }
}

// One row of a plane's crop into a half.
// Rules out: the whole last pixel carried to the next column; every lane read at the first one's place; a column a pixel short.
pub fn import_plane_row(
    lanes: u32,
    crop_width: u32,
    target_width: u32,
    row: &[u8],
    half: &mut [u32],
) -> Result<(), Refusal>
    ensures number { answer_number result ≡ import_number lanes crop_width target_width (length row.now) (length half.old) }
    ensures half { half.new ≡ plane_half lanes crop_width target_width row.now half.old }
{
    if crop_width < target_width {
        return widen_plane_row(lanes, crop_width, target_width, row, half);
    }
    check_import(lanes, crop_width, target_width, row.len(), half.len())?;
    shrink(
        row,
        lanes as usize,
        crop_width as usize,
        target_width as usize,
        half,
    );
    Ok(())
}
