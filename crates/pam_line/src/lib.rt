// What a line of a PAM header says, after the first (SCOPE, "PAM").
#![tactic(auto)]

ghost use Rattle.std.specs.Prelude.{◌≡◌};
ghost use Rattle.pam_line.specs.Line.{keyword_of, says};
ghost use Rattle.pam_line.specs.Inner.{held, number_said, said_of};

use pam_text::{Class, run_of, same};
use pam_words::split_word;
use preview_decimal::number;

// What a number may be given for.
#[derive(Clone, Copy)]
pub enum Key {
    Width,
    Height,
    Depth,
    Maxval,
}

// The first word of a line that says something.
#[derive(Clone, Copy)]
pub enum Keyword {
    Number(Key),
    Type,
    End,
    Other,
}

// What a line says.
#[derive(Clone, Copy)]
pub enum Said {
    Nothing,
    Number { key: Key, value: u32 },
    // a tuple type: RGB_ALPHA alone, or another
    RgbAlpha,
    OtherType,
    // the end of the header
    End,
    // outside the form
    Outside,
}

// Kept: (c) a match on the byte strings is refused, with 43 goals open, 36 of them in its last arm.
#[tactic(auto, unfolding(crate::specs::Line::keyword_of))]
fn keyword_of(w: &[u8]) -> Keyword
    ensures { result ≡ keyword_of w.now }
{
    if same(w, b"WIDTH") {
        return Keyword::Number(Key::Width);
    }
    if same(w, b"HEIGHT") {
        return Keyword::Number(Key::Height);
    }
    if same(w, b"DEPTH") {
        return Keyword::Number(Key::Depth);
    }
    if same(w, b"MAXVAL") {
        return Keyword::Number(Key::Maxval);
    }
    if same(w, b"TUPLTYPE") {
        return Keyword::Type;
    }
    if same(w, b"ENDHDR") {
        return Keyword::End;
    }
    Keyword::Other
}

// A line of a number, by its second word and its third, empty where there is none.
#[tactic(auto, using(crate::proofs::Saying::number_letter, crate::proofs::Saying::number_alone), unfolding(crate::specs::Inner::number_said))]
fn number_line(key: Key, word: &[u8], next: &[u8]) -> Said
    ensures { result ≡ number_said key word.now next.now }
{
    if word.is_empty() || !next.is_empty() || run_of(Class::Digit, word) != word.len() {
        return Said::Outside;
    }
    Said::Number {
        key,
        value: number(word).unwrap_or(u32::MAX),
    }
}

// A line by its first word, its second and its third.
#[tactic(auto, unfolding(crate::specs::Inner::type_said))]
fn by_words(keyword: Keyword, a: &[u8], b: &[u8]) -> Said
    ensures { result ≡ said_of keyword a.now b.now }
{
    match keyword {
        Keyword::Number(key) => number_line(key, a, b),
        Keyword::Type if a.is_empty() => Said::Outside,
        Keyword::Type if b.is_empty() && same(a, b"RGB_ALPHA") => Said::RgbAlpha,
        Keyword::Type => Said::OtherType,
        Keyword::End if a.is_empty() => Said::End,
        Keyword::End | Keyword::Other => Said::Outside,
    }
}

// What a line says; a number of more than 32 bits is told as the largest of them.
// Rules out: HEIGHT taken for WIDTH; a number left out, a letter in it, a word after it; a tuple type of no word; RGB_ALPHA and another word taken
// for RGB_ALPHA alone; a word after ENDHDR; a comment that begins with %.
#[tactic(auto, using(crate::proofs::Saying::hash_is, crate::proofs::Saying::says_comment, crate::proofs::Saying::says_blanks))]
pub fn line_says(line: &[u8]) -> Said
    ensures { result ≡ held (says line.now) }
{
    // Kept: blanks alone are told before a word is looked for: a header may have many such lines.
    if line.starts_with(b"#") || line.len() <= run_of(Class::Blank, line) {
        return Said::Nothing;
    }
    let (w, rest) = split_word(line);
    let (a, more) = split_word(rest);
    let (b, _) = split_word(more);
    by_words(keyword_of(w), a, b)
}
