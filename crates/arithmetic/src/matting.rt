// Matting and restoring a pixel AARRGGBB (SCOPE, "Fixed point and matting"; the Rust: geometry.rs, libwebp's WebPMultARGBRow_C).
ghost use Rattle.std.specs.Prelude.{◌≡◌, ◌<◌, min};
ghost use Rattle.arithmetic.specs.Matte.{matte_factor, factor_of, scale_colour, cut_colour, mult_argb, restore_factors, restored_by};

// One colour matted, for every alpha and with no case: libwebp's factor 65793 × alpha over 2^24 is alpha / 255 rounded to the nearest.
// All of it fits 16 bits, which lets the compiler put eight colours into one vector.
// Rules out: a product rounded down; a quotient by 256 in place of 255.
pub fn matte(colour: u8, alpha: u8) -> u32
    ensures { result ≡ scale_colour colour (matte_factor alpha) }
{
    let t = colour as u16 * alpha as u16 + 128;
    ((t + t / 256) / 256) as u32
}

// The factors to restore, as they are lent to `restore`. A table is built anew at each use: a row's pixels share one.
// Rules out: an entry off by one; the table shifted by an entry.
pub fn restore_factors() -> [u32; 254]
    ensures { result ≡ restore_factors }
{
    RESTORE_FACTORS
}

// The Rust's mult_alpha, libwebp's Mult.
fn mult_alpha(colour: u32, scale: u32) -> u32
    requires { colour < 256 }
    ensures { result ≡ scale_colour colour scale }
{
    ((colour as u64 * scale as u64 + 8388608) / 16777216) as u32
}

// One colour restored by lent factors, for every alpha. A colour above its alpha counts as the alpha, which by SCOPE's factors is restored to 255: the cut
// ahead of the product is the cut after it.
// Rules out: a colour above its alpha that is not cut; the factor of another alpha.
pub fn restore(colour: u8, alpha: u8, factors: &[u32; 254]) -> u32
    ensures { result ≡ restored_by factors.now colour alpha }
{
    if alpha == 255 {
        return colour as u32;
    }
    if alpha == 0 {
        return 0;
    }
    mult_alpha(colour.min(alpha) as u32, factors[alpha as usize - 1])
}

// One colour matted, or restored where `inverse`.
fn scale(colour: u8, alpha: u8, inverse: bool, factors: &[u32; 254]) -> u8
    requires { factors.now ≡ restore_factors }
    ensures { result ≡ cut_colour colour (factor_of inverse alpha) }
{
    if inverse {
        return restore(colour, alpha, factors) as u8;
    }
    matte(colour, alpha) as u8
}

// The Rust's mult_argb: the colours of one pixel matted, or restored where `inverse`, each in its own lane.
// Rules out: a restored colour that spills into the next lane, or wraps in its own; two colours exchanged.
pub fn mult_argb(argb: u32, inverse: bool) -> u32
    ensures { result ≡ mult_argb argb inverse }
{
    let factors = restore_factors();
    let [blue, green, red, alpha] = argb.to_le_bytes();
    u32::from_le_bytes([
        scale(blue, alpha, inverse, &factors),
        scale(green, alpha, inverse, &factors),
        scale(red, alpha, inverse, &factors),
        alpha,
    ])
}

// The factors to restore, of alpha 1 to 254: entry alpha - 1 is 255 × 2^24 / alpha.
const RESTORE_FACTORS: [u32; 254] = [
    4278190080, 2139095040, 1426063360, 1069547520, 855638016, 713031680, 611170011, 534773760,
    475354453, 427819008, 388926370, 356515840, 329091544, 305585005, 285212672, 267386880,
    251658240, 237677226, 225167898, 213909504, 203723337, 194463185, 186008264, 178257920,
    171127603, 164545772, 158451484, 152792502, 147523795, 142606336, 138006131, 133693440,
    129642123, 125829120, 122234002, 118838613, 115626758, 112583949, 109697181, 106954752,
    104346099, 101861668, 99492792, 97231592, 95070890, 93004132, 91025320, 89128960, 87310001,
    85563801, 83886080, 82272886, 80720567, 79225742, 77785274, 76396251, 75055966, 73761897,
    72511696, 71303168, 70134263, 69003065, 67907779, 66846720, 65818308, 64821061, 63853583,
    62914560, 62002754, 61117001, 60256198, 59419306, 58605343, 57813379, 57042534, 56291974,
    55560910, 54848590, 54154304, 53477376, 52817161, 52173049, 51544458, 50930834, 50331648,
    49746396, 49174598, 48615796, 48069551, 47535445, 47013077, 46502066, 46002043, 45512660,
    45033579, 44564480, 44105052, 43655000, 43214041, 42781900, 42358317, 41943040, 41535826,
    41136443, 40744667, 40360283, 39983084, 39612871, 39249450, 38892637, 38542252, 38198125,
    37860089, 37527983, 37201652, 36880948, 36565727, 36255848, 35951177, 35651584, 35356942,
    35067131, 34782033, 34501532, 34225520, 33953889, 33686536, 33423360, 33164264, 32909154,
    32657939, 32410530, 32166842, 31926791, 31690296, 31457280, 31227664, 31001377, 30778345,
    30558500, 30341773, 30128099, 29917413, 29709653, 29504759, 29302671, 29103333, 28906689,
    28712685, 28521267, 28332384, 28145987, 27962026, 27780455, 27601226, 27424295, 27249618,
    27077152, 26906855, 26738688, 26572609, 26408580, 26246564, 26086524, 25928424, 25772229,
    25617904, 25465417, 25314734, 25165824, 25018655, 24873198, 24729422, 24587299, 24446800,
    24307898, 24170565, 24034775, 23900503, 23767722, 23636409, 23506538, 23378087, 23251033,
    23125351, 23001021, 22878021, 22756330, 22635926, 22516789, 22398900, 22282240, 22166787,
    22052526, 21939436, 21827500, 21716700, 21607020, 21498442, 21390950, 21284527, 21179158,
    21074827, 20971520, 20869219, 20767913, 20667584, 20568221, 20469808, 20372333, 20275782,
    20180141, 20085399, 19991542, 19898558, 19806435, 19715161, 19624725, 19535114, 19446318,
    19358326, 19271126, 19184708, 19099062, 19014178, 18930044, 18846652, 18763991, 18682052,
    18600826, 18520303, 18440474, 18361330, 18282863, 18205064, 18127924, 18051434, 17975588,
    17900376, 17825792, 17751826, 17678471, 17605720, 17533565, 17462000, 17391016, 17320607,
    17250766, 17181486, 17112760, 17044581, 16976944, 16909842, 16843268,
];
