// A row goes out (SCOPE; the Rust: Rescaler::export_row of geometry.rs, libwebp's WebPRescalerExportRow). Work values may be anything:
// differences wrap, products are taken in 64 bits.
#![tactic(auto)]

ghost use Rattle.std.specs.Prelude.{◌≡◌, ◌+◌, ◌*◌, ◌^◌, ◌<◌, ◌≤◌, ◌++◌, length, drop, nat_lt, slice_index};
ghost use Rattle.arithmetic.specs.Word.{wrap_mul};
ghost use Rattle.arithmetic.specs.FixedPoint.{mult, floor, frac};
ghost use Rattle.arithmetic.specs.Table.{tabulate};
ghost use Rattle.pixels.specs.Refusals.{answer_number};
ghost use Rattle.rows.specs.Output.{clamp, rest_down, ratio, mixed};
ghost use Rattle.rows.specs.WorkRows.{half_of, byte_out, row_left};
ghost use Rattle.rows_tests.specs.Tests.{values_number};
ghost use Rattle.rows_scaling.specs.Scaling.{scale_in, values_out, values_work};
ghost use Rattle.rows_scaling.specs.Inner.Scaling.{RowAsks, RoomAsks, GrowAsks, Halved, shrink_left, shrink_byte, low_byte, factor_up, grow_byte};

use arithmetic::{frac, mult_fix, mult_fix_floor, wrapping_mul};
use pixels::Refusal;
use rows_tests::{RowScale, check_values};
use std::num::wrapping_sub_u32;

// v, at most 255. Where v is below 2^31 the two signed tests become one saturating pack of many values; `signed` is the same for a whole row, so the
// loops are compiled once for each.
fn byte_of(v: u32, signed: bool) -> u8
    requires { Halved signed v }
    ensures { result ≡ clamp v }
{
    if signed {
        return (v as i32).clamp(0, 255) as u8;
    }
    v.min(255) as u8
}

// What the values of a row are multiplied by, and whether their bytes are clamped by signed tests.
#[derive(Clone, Copy)]
struct Factor {
    by: u32,
    signed: bool,
    ghost halved: { Halved signed by },
}

impl Factor {
    // MULT of v and the factor, as a byte.
    fn byte(self, v: u32) -> u8
        ensures { result ≡ clamp (mult v self.by) }
    {
        byte_of(mult_fix(v, self.by), self.signed)
    }
}

// f of a value of the second half. The step 0, that of d = 0, is tested: it is the same for a whole row, so that it gets a loop of its own, as in the Rust,
// which does not read the second half.
fn share_of(second: u32, step: u32) -> u32
    ensures { result ≡ floor second step }
{
    if step == 0 {
        return 0;
    }
    mult_fix_floor(second, step)
}

// Heights that do not grow: f of each value of the second half replaces the first half, and the byte is made of their difference. The loops of
// export_row_shrink.
fn shrink_lanes(work: &mut [u32], step: u32, factor: Factor, out: &mut [u8])
    requires { length out.old + length out.old ≤ length work.old }
    ensures out { out.new ≡ tabulate (shrink_byte step factor.by (length out.old) work.old) (length out.old) }
    ensures work { work.new ≡ tabulate (shrink_left step (length out.old) work.old) (length out.old) ++ drop (length out.old) work.old }
{
    let w = out.len();
    for k in 0..w {
        let f = share_of(work[w + k], step);
        out[k] = factor.byte(wrapping_sub_u32(work[k], f));
        work[k] = f;
    }
}

// The ratio 2^32, which no word holds: the first half's low bytes go out, and it becomes 0. The Rust's export_row_special.
fn take_lanes(work: &mut [u32], out: &mut [u8])
    requires { length out.old + length out.old ≤ length work.old }
    ensures out { out.new ≡ tabulate (low_byte work.old) (length out.old) }
    ensures work { work.new ≡ tabulate (λ x. 0) (length out.old) ++ drop (length out.old) work.old }
{
    for k in 0..out.len() {
        out[k] = (work[k] % 256) as u8;
        work[k] = 0;
    }
}

// Heights that grow, d = 0: the newer row alone, from place `new` on. The first loop of export_row_expand.
fn level_lanes(work: &[u32], new: usize, factor: Factor, out: &mut [u8])
    requires { GrowAsks work.now new new out.old }
    ensures { out.new ≡ tabulate (grow_byte 0 factor.by work.now new new) (length out.old) }
{
    for k in 0..out.len() {
        out[k] = factor.byte(work[new + k]);
    }
}

// (a×newer + b×older + 2^31) / 2^32 with a + b = 2^32, of the values at places `new` and `old`.
fn blended(work: &[u32], new: usize, old: usize, a: u32, b: u32) -> u32
    requires in_bounds { (new < length work.now) × (old < length work.now) }
    requires b_value { a + b ≡ 2 ^ 32 }
    ensures { result ≡ mixed b (slice_index work.now new) (slice_index work.now old) }
{
    let newer = work[new];
    let older = work[old];
    ((a as u64 * newer as u64 + b as u64 * older as u64 + 2147483648) / 4294967296) as u32
}

// Heights that grow: the newer row and the older one, from places `new` and `old` on, blended, b of the older. The second loop of export_row_expand.
// Two values a turn, the second from the places `new_next` and `old_next` on: so four even values and four odd ones are taken at once, each product from
// where its values lie, with no shuffle, and eight bytes are packed together.
fn blend_lanes(
    work: &[u32],
    new: usize,
    new_next: usize,
    old: usize,
    old_next: usize,
    b: u32,
    factor: Factor,
    out: &mut [u8],
)
    requires grow_asks { GrowAsks work.now new old out.old }
    requires new_next_value { (new_next ≡ new + 1) × (old_next ≡ old + 1) }
    requires b_nonzero { 0 < b }
    ensures { out.new ≡ tabulate (grow_byte b factor.by work.now new old) (length out.old) }
{
    let w = out.len();
    let a = (4294967296u64 - b as u64) as u32;
    for pair in 0..w / 2 {
        let k = 2 * pair;
        let even = blended(work, new + k, old + k, a, b);
        let odd = blended(work, new_next + k, old_next + k, a, b);
        out[k] = factor.byte(even);
        out[k + 1] = factor.byte(odd);
    }
    if w % 2 == 1 {
        let k = w - 1;
        out[k] = factor.byte(blended(work, new + k, old + k, a, b));
    }
}

// The half of the work rows that crop row c goes to, where the height grows.
fn half_of(w: usize, c: u32) -> usize
    ensures { result ≡ half_of w c }
{
    if c % 2 == 0 {
        return w;
    }
    0
}

// The place after the first of that half. It has a branch of its own: a compiler that knew it next to the first would read both at once, and shuffle.
fn next_of(w: usize, c: u32) -> usize
    requires { w + 1 < 2 ^ 64 }
    ensures { result ≡ half_of w c + 1 }
{
    if c % 2 != 0 {
        return 1;
    }
    w + 1
}

// The factor from j to the byte. For span 1 it is exactly one, which no word holds; 2^32 - 1 serves: MULT of j and it is j up to 2^31, and beyond it j - 1,
// which is cut at 255 as j is. So span 1 needs no loop of its own. No branch: a factor that comes out of one is no word to the compiler, and each product
// of the loops becomes two.
fn factor_up(span: u32) -> u32
    requires { 1 ≤ span }
    ensures { result ≡ factor_up span }
{
    let q = 4294967296u64 / span as u64;
    (q - q / 4294967296) as u32
}

// An output row that is due: `used` crop rows came in, and `row` is SCOPE's Y.
#[derive(Clone, Copy)]
struct DueRow {
    s: RowScale,
    used: u32,
    row: u32,
    ghost asks: { RowAsks (scale_in s) used row },
}

// Kept: RoomAsks stands beside it, since a struct that holds a &mut has no ghost field.
impl DueRow {
    // The factor that f of each value is taken by: FRAC(1,g)×d modulo 2^32. FLOOR with the factor 0 is 0, so that d = 0 is no case of its own.
    fn share_step(self) -> u32
        requires { self.s.g ≤ self.s.h }
        ensures { result ≡ wrap_mul (frac 1 self.s.g) (rest_down self.s.h self.s.g self.used self.row) }
    {
        let d = (self.used as u64 * self.s.g as u64
            - (self.row as u64 + 1) * self.s.h as u64) as u32;
        wrapping_mul(frac(1, self.s.g), d)
    }

    // q, which is 2^32 at the most.
    fn ratio(self) -> u64
        ensures { result ≡ ratio self.s.span self.s.h self.s.g }
    {
        self.s.g as u64 * 4294967296 / (self.s.span as u64 * self.s.h as u64)
    }

    // Whether q is below 2^31. The sizes are tested, and not q: a compiler that knew the ratio below 2^31 would drop the signed test of `byte_of`, and the
    // saturating pack with it.
    fn below_half(self) -> bool
        ensures { result ≡ nat_lt (2 * self.s.g) (self.s.span * self.s.h) }
    {
        2 * (self.s.g as u64) < self.s.span as u64 * self.s.h as u64
    }

    // The height does not grow. The Rust: Rescaler::export_row_shrink, and export_row_special where q is 2^32.
    fn shrink(self, out: &mut [u8], work: &mut [u32])
        requires g_le_h { self.s.g ≤ self.s.h }
        requires room_asks { RoomAsks work.old out.old self.s.w }
        ensures out { out.new ≡ tabulate (byte_out (scale_in self.s) self.used self.row work.old) self.s.w }
        ensures work { work.new ≡ row_left (scale_in self.s) self.used self.row work.old }
    {
        let step = self.share_step();
        let q = self.ratio();
        if q == 4294967296 {
            take_lanes(work, out);
            return;
        }
        let factor = Factor {
            by: q as u32,
            signed: self.below_half(),
        };
        shrink_lanes(work, step, factor, out);
    }

    // The height grows: the Rust's export_row_expand; no work value changes. The factor is below 2^31 for spans above 2 alone; the span is tested, for the
    // same reason.
    fn grow(self, out: &mut [u8], work: &[u32])
        requires h_lt_g { self.s.h < self.s.g }
        requires room_asks { RoomAsks work.now out.old self.s.w }
        ensures { out.new ≡ tabulate (byte_out (scale_in self.s) self.used self.row work.now) self.s.w }
    {
        let s = self.s;
        let used = self.used;
        let d = ((used - 1) as u64 * (s.g - 1) as u64 - self.row as u64 * (s.h - 1) as u64) as u32;
        let b = frac(d, s.g - 1);
        let factor = Factor {
            by: factor_up(s.span),
            signed: s.span > 2,
        };
        let w = s.w;
        let new = half_of(w, used - 1);
        let old = half_of(w, used);
        if b == 0 {
            level_lanes(work, new, factor, out);
            return;
        }
        let new_next = next_of(w, used - 1);
        let old_next = next_of(w, used);
        blend_lanes(work, new, new_next, old, old_next, b, factor, out);
    }
}

// Makes output row `row` (SCOPE's Y) of a crop of which `used` rows came in: w values, whatever the lanes of its pixels, none of them restored yet.
// The Rust: Rescaler::export_row. Rules out: f rounded to the nearest; a difference that saturates; the ratio 2^32 taken as a word; the halves exchanged; one
// column made taller that vanishes.
pub fn scale_values(
    s: RowScale,
    used: u32,
    row: u32,
    out: &mut [u8],
    work: &mut [u32],
) -> Result<(), Refusal>
    ensures number { answer_number result ≡ values_number s used row (length out.old) (length work.old) }
    ensures out { out.new ≡ values_out s used row out.old work.old }
    ensures work { work.new ≡ values_work s used row (length out.old) work.old }
{
    check_values(s, used, row, out.len(), work.len())?;
    let due = DueRow { s, used, row };
    if s.g <= s.h {
        due.shrink(out, work);
        return Ok(());
    }
    due.grow(out, work);
    Ok(())
}
