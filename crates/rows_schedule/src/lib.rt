// How many output rows a number of crop rows makes (SCOPE, "The job"; libwebp: utils/rescaler_utils.c).
// Every function answers for all arguments. A crop height of 0, which no job has, gets what the definition says with the library's x / 0 = 0.
#![tactic(auto)]

ghost use Rattle.std.specs.Prelude.{◌≡◌, ◌-◌, ◌≤◌};
ghost use Rattle.arithmetic.specs.Quotient.{ceil};
ghost use Rattle.rows_schedule.specs.Schedule.{used, made, rows_by, counts_fit, needed};

// u: how many crop rows are among the first source rows, `accepted` of them.
// Rules out: a count that runs on below the crop; one that starts at the picture's top.
pub fn used_rows(top: u32, height: u32, accepted: u32) -> u32
    ensures { result ≡ used top height accepted }
{
    accepted.saturating_sub(top).min(height)
}

// R of u: how many output rows the first crop rows make.
// Rules out: a growing height that waits for the next crop row (no 1 +); a single crop row that makes a single row.
pub fn made_rows(height: u32, target: u32, rows: u32) -> u64
    ensures { result ≡ made height target rows }
{
    if target <= height {
        if height == 0 {
            return 0;
        }
        return rows as u64 * target as u64 / height as u64;
    }
    if rows == 0 {
        return 0;
    }
    if height == 1 {
        return target as u64;
    }
    if height == 0 {
        return 1;
    }
    1 + (rows - 1) as u64 * (target - 1) as u64 / (height - 1) as u64
}

// R(k): how many output rows the first source rows make.
// Rules out: rows above the crop that count; the crop and the target height exchanged.
pub fn rows_by(top: u32, height: u32, target: u32, accepted: u32) -> u64
    ensures { result ≡ rows_by top height target accepted }
{
    made_rows(height, target, used_rows(top, height, accepted))
}

// x / d rounded up; 0 for d = 0.
fn rounded_up(x: u64, d: u32) -> u64
    ensures { result ≡ ceil x d }
{
    if d == 0 {
        return 0;
    }
    x.div_ceil(d as u64)
}

// U of an output row: how many crop rows it needs, the least whose R is above it.
// Rules out: the row before asked for; a growing height that needs a crop row more.
pub fn needed_rows(height: u32, target: u32, row: u32) -> u64
    ensures { result ≡ needed height target row }
{
    if target <= height {
        return rounded_up((row as u64 + 1) * height as u64, target);
    }
    1 + rounded_up(
        row as u64 * height.saturating_sub(1) as u64,
        target.saturating_sub(1),
    )
}

// The counts that calls can reach: k ≤ source height, R(k-1) ≤ t ≤ R(k).
// Rules out: R(k-1) asked at k; R(k-1) asked of the rows taken; a count above R(k).
pub fn counts_fit(
    top: u32,
    height: u32,
    target: u32,
    source: u32,
    accepted: u32,
    taken: u32,
) -> bool
    ensures { result ≡ counts_fit top height target source accepted taken }
{
    if source < accepted {
        return false;
    }
    let before = accepted.saturating_sub(1);
    if (taken as u64) < rows_by(top, height, target, before) {
        return false;
    }
    taken as u64 <= rows_by(top, height, target, accepted)
}
