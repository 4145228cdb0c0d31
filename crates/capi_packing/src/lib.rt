// The library for C (include/jonquilsaw.h), packing: numbers and slices only. In C a slice is a pointer, then a count of elements.
// Every function answers for all arguments: 0 where the call was accepted, SCOPE's number where it was refused, and BOUNDARY for what only
// this boundary can be asked, tested first.
#![tactic(auto)]

ghost use Rattle.std.specs.Prelude.{◌≡◌, length};
ghost use Rattle.capi_packing.specs.Packing.{number_of_pack, out_after_pack, number_of_unpack, argb_after_unpack, number_of_argb_has_alpha, flag_after_argb_has_alpha};

use capi_words::{BOUNDARY, LAYOUTS, flag_word, layout_of, number_of, store};

// ---- the exported functions

// The values AARRGGBB packed to bytes.
// Rules out: the first layout's byte order for every word; 0 told although the output was refused.
#[unsafe(no_mangle)]
pub extern "C" fn jonquilsaw_pack_pixels(layout: u32, argb: &[u32], out: &mut [u8]) -> u32
    ensures number { result ≡ number_of_pack layout (length argb.now) (length out.old) }
    ensures out { out.new ≡ out_after_pack layout argb.now out.old }
{
    if layout >= LAYOUTS {
        return BOUNDARY;
    }
    let answer = pixels_packing::pack_pixels(layout_of(layout), argb, out);
    number_of(answer)
}

// The pixels of bytes as values AARRGGBB; 1 to 3 trailing bytes are ignored.
// Rules out: the first layout's byte order for every word; the number of layouts taken for a layout.
#[unsafe(no_mangle)]
pub extern "C" fn jonquilsaw_unpack_pixels(layout: u32, bytes: &[u8], argb: &mut [u32]) -> u32
    ensures number { result ≡ number_of_unpack layout (length bytes.now) (length argb.old) }
    ensures argb { argb.new ≡ argb_after_unpack layout bytes.now argb.old }
{
    if layout >= LAYOUTS {
        return BOUNDARY;
    }
    let answer = pixels_packing::unpack_pixels(layout_of(layout), bytes, argb);
    number_of(answer)
}

// The alpha flag of values AARRGGBB, 0 or 1, in one lent word.
// Rules out: the flag inverted; 0 told where no word was lent.
#[unsafe(no_mangle)]
pub extern "C" fn jonquilsaw_argb_has_alpha(argb: &[u32], flag: &mut [u32]) -> u32
    ensures number { result ≡ number_of_argb_has_alpha (length flag.old) }
    ensures flag { flag.new ≡ flag_after_argb_has_alpha argb.now flag.old }
{
    if flag.len() < 1 {
        return BOUNDARY;
    }
    let on = pixels_packing::argb_has_alpha(argb);
    store(&[flag_word(on)], flag);
    0
}
