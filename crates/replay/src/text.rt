// Reads the list's numbers.
// A number, and where the text goes on.
#[derive(Clone, Copy)]
pub(crate) struct Read {
    pub(crate) value: u32,
    pub(crate) next: usize,
}

// Where the first digit at or after `at` stands, or the text's end.
fn skip(text: &[u8], at: usize) -> usize {
    for i in at..text.len() {
        if text[i].is_ascii_digit() {
            return i;
        }
    }
    at.max(text.len())
}

// The digits '0' to '9' are 48 to 57, so the rest by 16 is the digit.
fn with_digit(value: u32, digit: u8) -> u32 {
    value.wrapping_mul(10).wrapping_add(u32::from(digit % 16))
}

// The next decimal number from `at` on, modulo 2^32; 0 at the text's end.
pub(crate) fn number(text: &[u8], at: usize) -> Read {
    let start = skip(text, at);
    let mut value = 0u32;
    for i in start..text.len() {
        let b = text[i];
        if !b.is_ascii_digit() {
            return Read { value, next: i };
        }
        value = with_digit(value, b);
    }
    Read {
        value,
        next: start.max(text.len()),
    }
}

// The next fifteen numbers; returns where the text goes on.
pub(crate) fn entry(text: &[u8], at: usize, fields: &mut [u32; 15]) -> usize {
    let mut next = at;
    for field in fields {
        let n = number(text, next);
        *field = n.value;
        next = n.next;
    }
    next
}
