// The words of a line (SCOPE, "PAM").
#![tactic(auto)]

ghost use Rattle.std.specs.Prelude.{◌≡◌};
ghost use Rattle.pam_words.specs.Words.{word_of, past_word};

use pam_parts::{head_of, tail_of};
use pam_text::{Class, run_of};

// The first word, empty where there is none, and what follows it.
// Rules out: a word cut off; the bytes from the left edge on; the word itself for what follows it; the blanks before it not counted.
#[tactic(auto, unfolding(crate::specs::Words::word_of, crate::specs::Words::past_word))]
pub fn split_word(s: &[u8]) -> (&[u8], &[u8])
    ensures word { result.0.now ≡ word_of s.now }
    ensures past { result.1.now ≡ past_word s.now }
{
    let a = run_of(Class::Blank, s);
    let t = tail_of(s, a);
    let n = run_of(Class::Solid, t);
    (head_of(t, n), tail_of(t, n))
}
