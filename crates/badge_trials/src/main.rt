// Lays badges on backgrounds: six pixels in every pair of layouts, then what is refused. Of each call its number and the background afterwards, a pixel's bytes to a
// line, in hexadecimal. The file `stdout` holds what tests/badge_model.py says.
#![tactic(auto)]

use pixels::{Dimensions, Refusal};
use pixels_layout::PixelLayout;
use std::io;

const LAYOUTS: [PixelLayout; 3] = [PixelLayout::Rgba8, PixelLayout::Argb8, PixelLayout::Bgra8];

fn main(rt: HostRuntime) -> io::Result<()> {
    for layout in LAYOUTS {
        for from in LAYOUTS {
            laid(&rt, layout, from)?;
        }
    }
    sizes(&rt)?;
    lengths(&rt)?;
    pairs(&rt)
}

// ---- a badge 3 by 2, its alphas 0, 1, 127, 128, 254 and 255

// On a background of this layout, in that layout.
fn laid(rt: &impl Print, layout: PixelLayout, from: PixelLayout) -> io::Result<()> {
    let mut pixels = [0u8; 24];
    let _ = pixels_packing::pack_pixels(
        layout,
        &[
            0xfffe_7f02,
            0xffff_0001,
            0xff00_ff7f,
            0xff00_ff7f,
            0xffff_0080,
            0xff11_2233,
        ],
        &mut pixels,
    );
    let mut badge = [0u8; 24];
    let _ = pixels_packing::pack_pixels(
        from,
        &[
            0x0001_80fe,
            0x01ff_00fe,
            0x7fff_0180,
            0x80ff_0180,
            0xfe00_ff7f,
            0xff02_80fd,
        ],
        &mut badge,
    );
    let size = sized(3, 2);
    number(
        rt,
        pixels_badge::lay_badge(size, layout, &mut pixels, size, from, &badge),
    )?;
    each(rt, &pixels)
}

// ---- what is refused: two pixels each, told to be of these sizes

// 1: of the background, of the badge, ahead of a length and of unequal sizes
fn sizes(rt: &impl Print) -> io::Result<()> {
    refused(rt, sized(0, 1), sized(2, 1), 255)?;
    refused(rt, sized(2, 1), sized(2, 0), 255)?;
    refused(rt, sized(3, 1), sized(16385, 1), 255)
}

// 3: of the background, of the badge, ahead of unequal sizes and of a background that is not opaque
fn lengths(rt: &impl Print) -> io::Result<()> {
    refused(rt, sized(1, 1), sized(2, 1), 255)?;
    refused(rt, sized(2, 1), sized(2, 2), 255)?;
    refused(rt, sized(2, 1), sized(3, 1), 254)
}

// 15, and ahead of 16; 16
fn pairs(rt: &impl Print) -> io::Result<()> {
    refused(rt, sized(2, 1), sized(1, 2), 255)?;
    refused(rt, sized(1, 2), sized(2, 1), 254)?;
    refused(rt, sized(2, 1), sized(2, 1), 254)
}

fn refused(rt: &impl Print, size: Dimensions, badge_size: Dimensions, last: u8) -> io::Result<()> {
    let mut p = [0xfeu8, 0x7f, 0x02, 0xff, 0x00, 0xff, 0x7f, last];
    let badge = [0x80u8, 0x01, 0xff, 0x7f, 0x80, 0x01, 0xff, 0x80];
    number(
        rt,
        pixels_badge::lay_badge(
            size,
            PixelLayout::Rgba8,
            &mut p,
            badge_size,
            PixelLayout::Bgra8,
            &badge,
        ),
    )?;
    each(rt, &p)
}

fn sized(width: u32, height: u32) -> Dimensions {
    Dimensions { width, height }
}

// ---- writing

fn number(rt: &impl Print, r: Result<(), Refusal>) -> io::Result<()> {
    line(rt, r.map_or_else(|why| why.number(), |()| 0))
}

// Each pixel's bytes, in one write.
fn each(rt: &impl Print, pixels: &[u8]) -> io::Result<()> {
    for px in pixels.chunks_exact(4) {
        if let [p, q, s, t] = *px {
            println!(rt; "{p:02x}{q:02x}{s:02x}{t:02x}")?;
        }
    }
    Ok(())
}

fn line(rt: &impl Print, n: u32) -> io::Result<()> {
    println!(rt; "{n:08x}")
}
