// Numbers below 100,000 in decimal, as the writer of PAM pictures puts them (SCOPE, "PAM").
#![tactic(auto)]

ghost use Rattle.std.specs.Prelude.{◌≡◌, ◌<◌, length};
ghost use Rattle.pam_put.specs.Put.{put_at};
ghost use Rattle.pam_decimal.specs.Decimal.{digit_at, decimal_of};

use pam_parts::tail_of;
use pam_put::put;

// How many digits there are. Rules out: one digit for 10; three for 1000.
#[tactic(auto, using(crate::proofs::Decimals::one_is, crate::proofs::Decimals::two_is, crate::proofs::Decimals::three_is, crate::proofs::Decimals::four_is, crate::proofs::Decimals::five_is))]
pub fn digits_of(n: u32) -> usize
    ensures { result ≡ length (decimal_of n) }
{
    match n {
        0..10 => 1,
        10..100 => 2,
        100..1000 => 3,
        1000..10000 => 4,
        _ => 5,
    }
}

fn digit_at(n: u32, p: u32) -> u8
    requires { 0 < p }
    ensures { result ≡ digit_at n p }
{
    (48 + n / p % 10) as u8
}

// Puts the digits into the buffer from the place on, the first that counts first; leaves the buffer as it was where they do not fit.
// Rules out: tens and ones exchanged; the hundreds at the place of tens.
#[tactic(auto, using(crate::proofs::Decimals::some_digits, crate::proofs::Decimals::last_of))]
pub fn put_decimal(out: &mut [u8], place: usize, n: u32)
    ensures { out.new ≡ put_at out.old place (decimal_of n) }
{
    let a = digit_at(n, 10000);
    let b = digit_at(n, 1000);
    let c = digit_at(n, 100);
    let d = digit_at(n, 10);
    let e = digit_at(n, 1);
    let text = [a, b, c, d, e];
    put(out, place, tail_of(&text, 5 - digits_of(n)));
}
