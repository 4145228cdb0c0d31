// The words that the library for C lends and hands over: layouts and flags as numbers, answers stored in lent words; and the boundary's own number and test.
// Every function answers for all arguments.
#![tactic(auto)]

ghost use Rattle.std.specs.Prelude.{◌≡◌};
ghost use Rattle.pixels.specs.Refusals.{answer_number};
ghost use Rattle.capi_words.specs.Words.{word_layout, flag_word, stored};
ghost use Rattle.capi_words.specs.Boundary.{misused};

use pixels::Refusal;
use pixels_layout::PixelLayout;

// Layouts are numbered from 0 in the order of PixelLayout.
pub const LAYOUTS: u32 = 3;

// Above every number of SCOPE: a layout argument that is none, or an answer slice that is too short.
pub const BOUNDARY: u32 = 100;

// ---- words

// The layout that a word names, the first where it names none. Kept: no TryFrom, which would refuse what `word_layout` gives a layout to.
// Rules out: two layouts exchanged; a word above the last taken for the last.
pub fn layout_of(word: u32) -> PixelLayout
    ensures { result ≡ word_layout word }
{
    match word {
        1 => PixelLayout::Argb8,
        2 => PixelLayout::Bgra8,
        _ => PixelLayout::Rgba8,
    }
}

// A flag as a word, 1 or 0. Rules out: a flag inverted; a word of all ones for true.
pub fn flag_word(flag: bool) -> u32
    ensures { result ≡ flag_word flag }
{
    u32::from(flag)
}

// The number of an answer that has nothing else to tell. Rules out: 0 told although the call was refused; 1 told although it went through.
pub fn number_of(answer: Result<(), Refusal>) -> u32
    ensures { result ≡ answer_number answer }
{
    match answer {
        Err(why) => why.number(),
        Ok(()) => 0,
    }
}

// Stores an answer in lent words, from the first on; fewer words than it has stay as they were.
// Rules out: the answer's first word not stored; the answer stored in the last words lent; exactly as many words as it has refused.
pub fn store(answer: &[u32], words: &mut [u32])
    ensures { words.new ≡ stored answer.now words.old }
{
    if words.len() < answer.len() {
        return;
    }
    words[..answer.len()].copy_from_slice(answer);
}

// ---- the boundary

// A layout argument that is none, or fewer words lent for the answer than it takes.
// Rules out: the number of layouts taken for a layout; exactly as many words lent as it takes refused.
pub fn misused(layout: u32, lent: usize, need: usize) -> bool
    ensures { result ≡ misused layout lent need }
{
    if layout >= LAYOUTS {
        return true;
    }
    lent < need
}
