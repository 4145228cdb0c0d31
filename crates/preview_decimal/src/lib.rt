// A decimal number as an argument has it.
#![tactic(auto)]

ghost use Rattle.std.specs.Prelude.{◌≡◌};
ghost use Rattle.preview_decimal.specs.Decimal.{is_digit, digit_of, decimal_value};

fn is_digit(b: u8) -> bool
    ensures { result ≡ is_digit b }
{
    matches!(b, b'0'..=b'9')
}

fn digit_of(b: u8) -> u32
    ensures { result ≡ digit_of b }
{
    (b % 16) as u32
}

// The number that a text stands for; none where it stands for none below 2^32.
// Rules out: a number of 33 bits taken; a colon taken for a digit; an empty text taken for 0.
#[tactic(auto, using(crate::proofs::Reading::read_bad, crate::proofs::Reading::read_large, crate::proofs::Reading::read_done))]
pub fn number(text: &[u8]) -> Option<u32>
    ensures { result ≡ decimal_value text.now }
{
    if text.is_empty() {
        return None;
    }
    let mut value = 0u32;
    for &b in text {
        if !is_digit(b) {
            return None;
        }
        value = value.checked_mul(10)?.checked_add(digit_of(b))?;
    }
    Some(value)
}
