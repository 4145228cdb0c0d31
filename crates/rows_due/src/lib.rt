// When an output row is due (SCOPE, "A row goes out": the range of d; the Rust: Rescaler::has_pending_output, which has a running y_accum in
// place of the row's number).
#![tactic(auto)]

ghost use Rattle.std.specs.Prelude.{◌≡◌, ◌-◌};
ghost use Rattle.rows_due.specs.Due as spec;
ghost use Rattle.rows_due.specs.Due.{within};

// from ≤ x < from + room
fn in_range(x: u64, from: u64, room: u64) -> bool
    ensures { result ≡ within x from room }
{
    from <= x && x - from < room
}

// Whether `used` crop rows are those of output row `row`, for a crop h and a target g high.
// Rules out: a row that is due once more although d has reached its end; a row that is not due although d is 0.
pub fn due(h: u32, g: u32, used: u32, row: u32) -> bool
    ensures { result ≡ spec.due h g used row }
{
    if g <= h {
        return in_range(
            used as u64 * g as u64,
            (row as u64 + 1) * h as u64,
            g as u64,
        );
    }
    if used == 0 {
        return false;
    }
    let a = used.saturating_sub(1);
    let b = g.saturating_sub(1);
    let c = h.saturating_sub(1);
    in_range(a as u64 * b as u64, row as u64 * c as u64, b as u64)
}
