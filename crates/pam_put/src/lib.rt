// A text put into a buffer, for every place (SCOPE, "PAM").
#![tactic(auto)]

ghost use Rattle.std.specs.Prelude.{◌≡◌};
ghost use Rattle.pam_put.specs.Put.{put_at};

// Puts a text into the buffer from the place on; leaves the buffer as it was where the text does not fit.
// Rules out: the text's first byte put at every place; a text that ends where the buffer ends left out.
pub fn put(out: &mut [u8], place: usize, text: &[u8])
    ensures { out.new ≡ put_at out.old place text.now }
{
    if place <= out.len() && text.len() <= out.len() - place {
        // Kept: with copy_from_slice the archive for C would need memmove from outside.
        for i in 0..text.len() {
            out[place + i] = text[i];
        }
    }
}
