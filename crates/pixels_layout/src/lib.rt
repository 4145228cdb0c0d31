// Layouts (SCOPE, "Lanes"; the Rust: PixelLayout).
#![tactic(auto)]

ghost use Rattle.std.specs.Prelude.{◌≡◌, ◌+◌, ◌*◌, ◌^◌, ◌<◌};
ghost use Rattle.arithmetic.specs.Matte.{lane_of};
ghost use Rattle.pixels.specs.Sizes.{pixel_lanes};
ghost use Rattle.pixels_layout.specs.Layout.{row_of, place_of, places_of, alpha_lane, packed, unpacked};

// The order of a pixel's bytes.
#[derive(Clone, Copy, PartialEq, Eq)]
pub enum PixelLayout {
    Rgba8,
    Argb8,
    Bgra8,
}

// Where a layout has the scaler's lanes: byte offsets within a pixel.
#[derive(Clone, Copy)]
pub struct Places {
    pub b: usize,
    pub g: usize,
    pub r: usize,
    pub a: usize,
}

// A row for each layout, in the order of PixelLayout: the place of the lanes B, G, R, A among a pixel's bytes. Each row is its own inverse, so it
// also says which lane stands at each place.
const LANES: [[usize; 4]; 3] = [[2, 1, 0, 3], [3, 2, 1, 0], [0, 1, 2, 3]];

fn place(layout: PixelLayout, k: usize) -> usize
    requires { k < pixel_lanes }
    ensures is { result ≡ place_of layout k }
    ensures within { result < pixel_lanes }
{
    LANES[layout as usize][k]
}

impl PixelLayout {
    // Where the lanes B, G, R, A stand: for a caller that reads a whole row. Rules out: two lanes exchanged; the place of blue for alpha.
    pub fn places(self) -> Places
        ensures { result ≡ places_of self }
    {
        Places {
            b: place(self, 0),
            g: place(self, 1),
            r: place(self, 2),
            a: place(self, 3),
        }
    }

    // The Rust's pack. Rules out: two lanes exchanged; a lane without its high bit.
    pub fn pack(self, argb: u32) -> [u8; 4]
        ensures { result ≡ packed self argb }
    {
        let lanes = argb.to_le_bytes();
        [
            lanes[place(self, 0)],
            lanes[place(self, 1)],
            lanes[place(self, 2)],
            lanes[place(self, 3)],
        ]
    }

    // The Rust's unpack. Rules out: two lanes exchanged; green at the weight of red.
    pub fn unpack(self, px: [u8; 4]) -> u32
        ensures { result ≡ unpacked self px }
    {
        let b = place(self, 0);
        let g = place(self, 1);
        let r = place(self, 2);
        let a = place(self, 3);
        u32::from_le_bytes([px[b], px[g], px[r], px[a]])
    }

    // The Rust's alpha_byte_offset, written out; it agrees with the table. Rules out: alpha last in every layout; alpha first in Bgra8.
    pub fn alpha_byte_offset(self) -> usize
        ensures { result ≡ place_of self alpha_lane }
    {
        match self {
            PixelLayout::Rgba8 => 3,
            PixelLayout::Argb8 => 0,
            PixelLayout::Bgra8 => 3,
        }
    }
}
