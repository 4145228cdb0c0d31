// The pixels that a pattern and a seed stand for, and the checksum (oracle/README.md).

// The checksum of no bytes, FNV-1a's.
pub(crate) const EMPTY: u32 = 2166136261;

fn step(s: u32) -> u32 {
    s.wrapping_mul(1664525).wrapping_add(1013904223)
}

fn low(x: u32) -> u8 {
    (x % 256) as u8
}

fn black_white(b: u32) -> u8 {
    if b < 128 { 0 } else { 255 }
}

fn few(k: u32) -> u8 {
    match k {
        0 => 0,
        1 => 1,
        2 => 2,
        3 => 128,
        4 => 254,
        _ => 255,
    }
}

fn alpha(pattern: u32, i: u32, b: u32) -> u8 {
    match pattern {
        1 | 4 | 6 | 9 => 255,
        2 | 5 => black_white(b),
        3 => few(b % 6),
        7 => low(i),
        8 => low(i / 256),
        _ => low(b),
    }
}

fn colour(pattern: u32, i: u32, b: u32) -> u8 {
    match pattern {
        4 | 5 => black_white(b),
        6 => 255,
        8 => low(i),
        9 => low(b % 4),
        _ => low(b),
    }
}

// The byte at place j of a row that starts with pixel `first`, from the state s.
fn value(pattern: u32, place: usize, first: u32, j: usize, s: u32) -> u8 {
    let i = first.wrapping_add((j / pixels::PIXEL_LANES % 4294967296) as u32);
    if j % pixels::PIXEL_LANES == place {
        return alpha(pattern, i, s / 16777216);
    }
    colour(pattern, i, s / 16777216)
}

// Fills a row that starts with pixel `first`; returns the generator's state after it.
pub(crate) fn fill(row: &mut [u8], place: usize, pattern: u32, first: u32, seed: u32) -> u32 {
    let mut s = seed;
    for (j, byte) in row.iter_mut().enumerate() {
        s = step(s);
        *byte = value(pattern, place, first, j, s);
    }
    s
}

// Fills an alpha plane.
pub(crate) fn fill_plane(plane: &mut [u8], pattern: u32, seed: u32) {
    let mut s = seed.wrapping_add(1);
    for (i, byte) in plane.iter_mut().enumerate() {
        s = step(s);
        *byte = alpha(pattern, (i % 4294967296) as u32, s / 16777216);
    }
}

fn mixed(h: u32, b: u8) -> u32 {
    (h ^ u32::from(b)).wrapping_mul(16777619)
}

// The checksum of bytes after those that made h.
pub(crate) fn check(h: u32, bytes: &[u8]) -> u32 {
    let mut sum = h;
    for &b in bytes {
        sum = mixed(sum, b);
    }
    sum
}
