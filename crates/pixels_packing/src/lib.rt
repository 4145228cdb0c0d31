// Packing and unpacking slices of pixels (SCOPE, "Lanes"; the Rust: pack_pixels, unpack_pixels, argb_has_alpha).
#![tactic(auto)]

ghost use Rattle.std.specs.Prelude.{◌≡◌, ◌++◌, ◌+◌, ◌*◌, ◌/◌, ◌≤◌, length, take, drop};
ghost use Rattle.pixels.specs.Refusals.{answer_number};
ghost use Rattle.pixels.specs.Sizes.{pixel_lanes};
ghost use Rattle.pixels_layout.specs.Layout.{packed_pixels, unpacked_pixels, pack_number, pack_out, unpack_number, unpack_out};
ghost use Rattle.pixels_alpha.specs.Alpha.{argb_has_alpha};

use pixels::{PIXEL_LANES, Refusal};
use pixels_layout::PixelLayout;

// Stores a pixel's bytes from at on.
fn put(out: &mut [u8], at: usize, px: [u8; 4])
    requires { (at + pixel_lanes ≤ length out.old) × (length px ≡ pixel_lanes) }
    ensures { out.new ≡ take at out.old ++ (px ++ drop (at + pixel_lanes) out.old) }
{
    out[at..at + PIXEL_LANES].copy_from_slice(&px);
}

fn pack_into(layout: PixelLayout, argb: &[u32], out: &mut [u8])
    requires { length out.old ≡ pixel_lanes * length argb.now }
    ensures { out.new ≡ packed_pixels layout argb.now }
{
    for i in 0..argb.len() {
        put(out, PIXEL_LANES * i, layout.pack(argb[i]));
    }
}

// The Rust's pack_pixels. Rules out: a longer buffer taken; a pixel packed twice.
pub fn pack_pixels(layout: PixelLayout, argb: &[u32], out: &mut [u8]) -> Result<(), Refusal>
    ensures number { answer_number result ≡ pack_number (length argb.now) (length out.old) }
    ensures out { out.new ≡ pack_out layout argb.now out.old }
{
    if out.len() % PIXEL_LANES != 0 {
        return Err(Refusal::OutputLength);
    }
    if out.len() / PIXEL_LANES != argb.len() {
        return Err(Refusal::OutputLength);
    }
    pack_into(layout, argb, out);
    Ok(())
}

fn unpack_into(layout: PixelLayout, bytes: &[u8], out: &mut [u32])
    requires { length out.old ≡ length bytes.now / pixel_lanes }
    ensures { out.new ≡ unpacked_pixels layout bytes.now }
{
    for i in 0..out.len() {
        let at = PIXEL_LANES * i;
        out[i] = layout.unpack([bytes[at], bytes[at + 1], bytes[at + 2], bytes[at + 3]]);
    }
}

// The Rust's unpack_pixels. Rules out: a buffer with one value more taken; alpha read from the byte before it.
pub fn unpack_pixels(layout: PixelLayout, bytes: &[u8], out: &mut [u32]) -> Result<(), Refusal>
    ensures number { answer_number result ≡ unpack_number (length bytes.now) (length out.old) }
    ensures out { out.new ≡ unpack_out layout bytes.now out.old }
{
    if out.len() != bytes.len() / PIXEL_LANES {
        return Err(Refusal::OutputLength);
    }
    unpack_into(layout, bytes, out);
    Ok(())
}

// The Rust's argb_has_alpha. Rules out: a flag that looks at red; one that is never true.
pub fn argb_has_alpha(argb: &[u32]) -> bool
    ensures { result ≡ argb_has_alpha argb.now }
{
    for pixel in argb {
        if *pixel / 16777216 != 255 {
            return true;
        }
    }
    false
}
