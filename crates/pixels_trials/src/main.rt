// Runs the trials of SCOPE that this layer answers, and the edges beside them: each answer's number, then its values, one to a line in hexadecimal.
// The file `stdout` holds what SCOPE says.
#![tactic(auto)]

use pixels::{Dimensions, Rect, Refusal};
use pixels_layout::PixelLayout;
use pixels_sizes::check_sizes;
use std::io;

fn main(rt: HostRuntime) -> io::Result<()> {
    sizes(&rt)?;
    limits(&rt)?;
    crops(&rt)?;
    for l in [PixelLayout::Rgba8, PixelLayout::Argb8, PixelLayout::Bgra8] {
        layout(&rt, l)?;
    }
    slices(&rt)?;
    pictures(&rt)
}

// ---- sizes

// Derived sides.
fn sizes(rt: &impl Print) -> io::Result<()> {
    // 3 by 2 scaled (0, 1): 2 by 1; 1 by 16384 scaled (2, 0): 1
    scaled(rt, 3, 2, 0, 1)?;
    scaled(rt, 1, 16384, 2, 0)?;
    // both 0; a side that no u32 holds; a source that does not pass
    scaled(rt, 3, 2, 0, 0)?;
    scaled(rt, 1, 16384, 4294967295, 0)?;
    scaled(rt, 0, 2, 1, 1)
}

// The limit itself, and one above it.
fn limits(rt: &impl Print) -> io::Result<()> {
    sized(rt, Dimensions::new(16384, 1))?;
    sized(rt, Dimensions::new(1, 16385))
}

fn scaled(
    rt: &impl Print,
    width: u32,
    height: u32,
    target_width: u32,
    target_height: u32,
) -> io::Result<()> {
    let size = Dimensions { width, height };
    sized(rt, size.scaled(target_width, target_height))
}

// ---- numbers 1 and 2

fn crops(rt: &impl Print) -> io::Result<()> {
    crop_checked(rt, Rect::new(1, 0, 2, 2), 3)?;
    // edges summed without wrapping; an empty crop that lies outside; a crop side above 16,384
    crop_checked(rt, Rect::new(4294967295, 0, 1, 1), 3)?;
    crop_checked(rt, Rect::new(9, 9, 0, 1), 3)?;
    crop_checked(rt, Rect::new(0, 0, 16385, 1), 3)?;
    // a target that does not pass is told before the crop
    crop_checked(rt, Rect::new(9, 9, 1, 1), 0)
}

// A crop of a picture 3 by 2, scaled to two rows of `target_width` pixels.
fn crop_checked(rt: &impl Print, crop: Rect, target_width: u32) -> io::Result<()> {
    let source = Dimensions {
        width: 3,
        height: 2,
    };
    let target = Dimensions {
        width: target_width,
        height: 2,
    };
    checked(rt, check_sizes(source, crop, target))
}

// ---- layouts

// A pixel packed and unpacked, and the place of its alpha.
fn layout(rt: &impl Print, l: PixelLayout) -> io::Result<()> {
    let px = l.pack(0x1122_3344);
    for b in px {
        byte(rt, b)?;
    }
    line(rt, l.unpack(px))?;
    count(rt, l.alpha_byte_offset())
}

// ---- slices

// Trailing bytes are ignored; an output of another length is 4.
fn slices(rt: &impl Print) -> io::Result<()> {
    let bytes = [0x22u8, 0x33, 0x44, 0x11, 9, 9, 9];
    unpacked(rt, &bytes)?;
    not_unpacked(rt, &bytes)?;
    packed(rt)
}

fn unpacked(rt: &impl Print, bytes: &[u8]) -> io::Result<()> {
    let mut one = [0u32; 1];
    checked(
        rt,
        pixels_packing::unpack_pixels(PixelLayout::Rgba8, bytes, &mut one),
    )?;
    line(rt, one[0])
}

fn not_unpacked(rt: &impl Print, bytes: &[u8]) -> io::Result<()> {
    let mut two = [7u32; 2];
    checked(
        rt,
        pixels_packing::unpack_pixels(PixelLayout::Rgba8, bytes, &mut two),
    )?;
    line(rt, two[0])
}

fn packed(rt: &impl Print) -> io::Result<()> {
    let one = [0x1122_3344u32];
    let mut out = [0u8; 4];
    checked(
        rt,
        pixels_packing::pack_pixels(PixelLayout::Argb8, &one, &mut out),
    )?;
    byte(rt, out[0])?;
    flag(rt, pixels_packing::argb_has_alpha(&one))
}

// ---- pictures

// A picture 2 by 2: cropped to its right column, and given an alpha plane.
fn pictures(rt: &impl Print) -> io::Result<()> {
    let mut pixels = [1u8, 2, 3, 255, 4, 5, 6, 255, 7, 8, 9, 0, 10, 11, 12, 255];
    flagged(
        rt,
        pixels_alpha::picture_has_alpha(two_by_two(), PixelLayout::Rgba8, &pixels),
    )?;
    crop_column(rt, &pixels)?;
    planes(rt, &mut pixels)?;
    windows(rt)
}

// A part of a row of four pixels: three from the second on, and four, which do not lie in it. The same bytes as eight pixels of two lanes; and lanes and a place
// whose product is the largest.
fn windows(rt: &impl Print) -> io::Result<()> {
    let row = [0u8; 16];
    count(rt, pixels_crop::window(4, &row, 1, 3).len())?;
    count(rt, pixels_crop::window(4, &row, 1, 4).len())?;
    count(rt, pixels_crop::window(2, &row, 1, 3).len())?;
    count(rt, pixels_crop::window(2, &row, 1, 7).len())?;
    count(
        rt,
        pixels_crop::window(4294967295, &row, 4294967295, 4294967295).len(),
    )
}

fn two_by_two() -> Dimensions {
    Dimensions {
        width: 2,
        height: 2,
    }
}

fn crop_column(rt: &impl Print, pixels: &[u8]) -> io::Result<()> {
    let mut out = [0u8; 8];
    cropped(rt, pixels, Rect::new(1, 0, 1, 2), &mut out)?;
    byte(rt, out[0])?;
    byte(rt, out[4])?;
    // an output of another length
    cropped(rt, pixels, Rect::new(0, 0, 1, 1), &mut out)
}

fn cropped(rt: &impl Print, pixels: &[u8], rect: Rect, out: &mut [u8]) -> io::Result<()> {
    flagged(
        rt,
        pixels_crop::crop(two_by_two(), PixelLayout::Rgba8, pixels, rect, out),
    )
}

fn planes(rt: &impl Print, pixels: &mut [u8; 16]) -> io::Result<()> {
    plane(rt, pixels, b"\xff\xff\xff\x00")?;
    byte(rt, pixels[11])?;
    byte(rt, pixels[15])?;
    // a plane of another length
    plane(rt, pixels, b"\xff")
}

fn plane(rt: &impl Print, pixels: &mut [u8], alphas: &[u8]) -> io::Result<()> {
    flagged(
        rt,
        pixels_alpha::apply_alpha_plane(two_by_two(), PixelLayout::Rgba8, pixels, alphas),
    )
}

// ---- writing

// The number of an answer, and where it went through what `values` writes of it.
fn answer<T: Drop, F: Fn(T) -> io::Result<()>>(
    rt: &impl Print,
    r: Result<T, Refusal>,
    values: F,
) -> io::Result<()>
    requires { F.IsAlwaysCallable values }
{
    match r {
        Ok(value) => {
            line(rt, 0)?;
            values(value)
        }
        Err(why) => line(rt, why.number()),
    }
}

fn checked(rt: &impl Print, r: Result<(), Refusal>) -> io::Result<()> {
    answer(rt, r, |()| Ok(()))
}

fn sized(rt: &impl Print, r: Result<Dimensions, Refusal>) -> io::Result<()> {
    answer(rt, r, |size| {
        line(rt, size.width)?;
        line(rt, size.height)
    })
}

fn flagged(rt: &impl Print, r: Result<bool, Refusal>) -> io::Result<()> {
    answer(rt, r, |on| flag(rt, on))
}

fn flag(rt: &impl Print, on: bool) -> io::Result<()> {
    line(rt, u32::from(on))
}

fn byte(rt: &impl Print, b: u8) -> io::Result<()> {
    line(rt, u32::from(b))
}

fn count(rt: &impl Print, n: usize) -> io::Result<()> {
    println!(rt; "{n:08x}")
}

fn line(rt: &impl Print, n: u32) -> io::Result<()> {
    println!(rt; "{n:08x}")
}
