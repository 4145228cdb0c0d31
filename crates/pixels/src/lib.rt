// Pixels: sizes and why a call is turned away (SCOPE, "Beside the job", "Why a call is turned away"; the Rust: Dimensions and Rect of image.rs and
// geometry.rs). Every function answers for all arguments. Fields are public: a value counts, whoever filled it, and is tested where it is used.
#![tactic(auto)]

ghost use Rattle.std.specs.Prelude.{◌≡◌};
ghost use Rattle.pixels.specs.Refusals.{number};

pub use sizes::{bad_side, bad_size};

mod sizes;

// Largest side of a picture, in pixels (the Rust's name): a bitstream stores a side less one in 14 bits.
pub const MAX_DIMENSION: u32 = 16384;

// The lanes of a pixel, a byte each: blue, green, red, alpha.
pub const PIXEL_LANES: usize = 4;

// The most lanes that a plane has.
pub const MAX_LANES: u32 = 4;

// A size, in pixels.
#[derive(Clone, Copy, Debug, PartialEq, Eq)]
pub struct Dimensions {
    pub width: u32,
    pub height: u32,
}

// A crop: its corner and its size, in pixels of the source.
#[derive(Clone, Copy, Debug, PartialEq, Eq)]
pub struct Rect {
    pub x: u32,
    pub y: u32,
    pub width: u32,
    pub height: u32,
}

// Why a call is turned away: the rows of SCOPE's table, each with the number that the table gives it.
#[derive(Clone, Copy, Debug, PartialEq, Eq)]
pub enum Refusal {
    // a source or target side is 0 or above MAX_DIMENSION, or the crop is empty
    InvalidDimensions = 1,
    // the crop's right or bottom edge lies beyond the picture
    CropOutOfBounds = 2,
    // pixels, alpha plane or offered rows of another length
    PixelBufferMismatch = 3,
    // an output buffer not of the exact length
    OutputLength = 4,
    // too few work values
    WorkLength = 5,
    // a record that breaks the rules
    InvalidRecord = 6,
    // an offer while an output row is ready
    RowReady = 7,
    // an offer with all source rows accepted
    AllAccepted = 8,
    // a take with none ready
    NoneReady = 9,
    // a plane of no lanes, or of more than MAX_LANES
    InvalidLanes = 10,
    // a PAM header outside the form
    PamMalformed = 11,
    // a PAM header inside the form, of another depth, maximum or tuple type than the reader takes
    PamUnsupported = 12,
    // a group without jobs, or of jobs that do not go over one source; a job that the group lacks
    InvalidGroup = 13,
    // a group of more jobs than the limit
    GroupTooLarge = 14,
    // a badge of another size than its background
    UnequalSizes = 15,
    // a background with an alpha byte other than 255
    BackgroundNotOpaque = 16,
    // a stretch that isn't exactly the rows of the next band, or where there is none
    InvalidBand = 17,
}

impl Refusal {
    // The column "No." of the table. Rules out: two numbers exchanged; 0, which is the number of a call that went through.
    pub fn number(self) -> u32
        ensures { result ≡ number self }
    {
        self as u32
    }
}
