// A crop row comes into the work rows (SCOPE, "A row comes in"; the Rust: Rescaler::import). Here the halves are added; `put` has the whole row.
#![tactic(auto)]

ghost use Rattle.std.specs.Prelude.{◌≡◌, ◌+◌, ◌≤◌, length};
ghost use Rattle.pixels.specs.Refusals.{answer_number};
ghost use Rattle.rows.specs.WorkRows.{added};
ghost use Rattle.rows_adding.specs.Adding.{add_number, add_work};

use pixels::Refusal;
use std::num::wrapping_add_u32;

mod put;

pub use put::put_row;

fn add_to_first(work: &mut [u32], w: usize)
    requires { w + w ≤ length work.old }
    ensures { work.new ≡ added w work.old }
{
    for k in 0..w {
        work[k] = wrapping_add_u32(work[k], work[w + k]);
    }
}

// The second half added to the first, modulo 2^32, w values each, whatever their lanes; the second stays.
// Rules out: a sum that saturates; a row rounded before it is added; the first value left out; work values for one half alone.
pub fn add_halves(w: usize, work: &mut [u32]) -> Result<(), Refusal>
    ensures number { answer_number result ≡ add_number w (length work.old) }
    ensures work { work.new ≡ add_work w work.old }
{
    if work.len() / 2 < w {
        return Err(Refusal::WorkLength);
    }
    add_to_first(work, w);
    Ok(())
}
