// Bytes of a PAM header: the runs that they come in, and texts compared (SCOPE, "PAM"; netpbm's page of the format).
#![tactic(auto)]

ghost use Rattle.std.specs.Prelude.{◌≡◌};
ghost use Rattle.pam_text.specs.Text.{is_blank, is_of, run_length, same_text};

// The bytes of a line, of a gap between words, of a word, of a number.
#[derive(Clone, Copy)]
pub enum Class {
    Inside,
    Blank,
    Solid,
    Digit,
}

fn is_blank(b: u8) -> bool
    ensures { result ≡ is_blank b }
{
    matches!(b, 9 | 11..=13 | 32)
}

fn is_of(class: Class, b: u8) -> bool
    ensures { result ≡ is_of class b }
{
    match class {
        Class::Inside => b != 10,
        Class::Blank => is_blank(b),
        Class::Solid => !is_blank(b),
        Class::Digit => matches!(b, b'0'..=b'9'),
    }
}

// How many bytes of a class the slice begins with. Rules out: byte 14 taken for a blank; a colon taken for a digit.
pub fn run_of(class: Class, s: &[u8]) -> usize
    ensures { result ≡ run_length class s.now }
{
    // Kept: take_while(..).count() took half as long again over blanks.
    for i in 0..s.len() {
        if !is_of(class, s[i]) {
            return i;
        }
    }
    s.len()
}

// Two texts are the same, byte by byte. Kept: a name for ==, whose one law stands here and not with each caller.
// Rules out: a text taken for a longer one that begins with it; a text taken for one of smaller bytes.
#[tactic(auto, using(crate::proofs::Texts::same_is))]
pub fn same(s: &[u8], t: &[u8]) -> bool
    ensures { result ≡ same_text s.now t.now }
{
    s == t
}
