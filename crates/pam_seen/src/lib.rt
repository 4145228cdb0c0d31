// What the lines of a PAM header said so far, as the program holds it (SCOPE, "PAM").
#![tactic(auto)]

ghost use Rattle.std.specs.Prelude.{◌≡◌};
ghost use Rattle.pam_seen.specs.Inner.{at, put, after_line};

use pam_line::{Key, Said};

// The tuple types given so far: none, RGB_ALPHA alone in one line, or anything else.
#[derive(Clone, Copy, PartialEq, Eq)]
pub enum Types {
    Missing,
    RgbAlpha,
    Other,
}

// Where the header stands: it goes on, it has ended, or a line was outside the form.
#[derive(Clone, Copy, PartialEq, Eq)]
pub enum State {
    GoesOn,
    Ended,
    Outside,
}

// The number given for each key, the tuple types, and where the header stands.
#[derive(Clone, Copy)]
pub struct Seen {
    pub width: Option<u32>,
    pub height: Option<u32>,
    pub depth: Option<u32>,
    pub maxval: Option<u32>,
    pub types: Types,
    pub state: State,
}

// Kept, and the next: of an array by the key's number no field would have a name.
fn given(t: Seen, key: Key) -> Option<u32>
    ensures { result ≡ at t key }
{
    match key {
        Key::Width => t.width,
        Key::Height => t.height,
        Key::Depth => t.depth,
        Key::Maxval => t.maxval,
    }
}

fn give(mut t: Seen, key: Key, v: u32) -> Seen
    ensures { result ≡ put t key v }
{
    match key {
        Key::Width => t.width = Some(v),
        Key::Height => t.height = Some(v),
        Key::Depth => t.depth = Some(v),
        Key::Maxval => t.maxval = Some(v),
    }
    t
}

// What was seen after one line more. Rules out: a key given twice passed; RGB_ALPHA given twice taken for once; a header that goes on after its end.
pub fn after_line(mut t: Seen, said: Said) -> Seen
    ensures { result ≡ after_line t said }
{
    match said {
        Said::Nothing => {}
        Said::Number { key, value } if given(t, key).is_none() => t = give(t, key, value),
        Said::RgbAlpha if t.types == Types::Missing => t.types = Types::RgbAlpha,
        Said::RgbAlpha | Said::OtherType => t.types = Types::Other,
        Said::End => t.state = State::Ended,
        Said::Number { .. } | Said::Outside => t.state = State::Outside,
    }
    t
}
