// 1 by a side, an input that deserves several numbers, and 3 by the pixels.
use crate::each;
use std::io;

pub(crate) fn trials(rt: &impl Print) -> io::Result<()> {
    sides(rt)?;
    several(rt)?;
    lengths(rt)
}

// 1 by a side. Where the low bits of a number are a small side, the pixels are right for that one.
fn sides(rt: &impl Print) -> io::Result<()> {
    each(
        rt,
        b"width 0\nP7\nWIDTH 0\nHEIGHT 1\nDEPTH 4\nMAXVAL 255\nTUPLTYPE RGB_ALPHA\nENDHDR\n~\
        width 00000\nP7\nWIDTH 00000\nHEIGHT 1\nDEPTH 4\nMAXVAL 255\nTUPLTYPE RGB_ALPHA\nENDHDR\n~\
        width 16385\nP7\nWIDTH 16385\nHEIGHT 1\nDEPTH 4\nMAXVAL 255\nTUPLTYPE RGB_ALPHA\nENDHDR\nabcdefgh~\
        width 65538\nP7\nWIDTH 65538\nHEIGHT 1\nDEPTH 4\nMAXVAL 255\nTUPLTYPE RGB_ALPHA\nENDHDR\nabcdefgh~\
        width 4294967295\nP7\nWIDTH 4294967295\nHEIGHT 1\nDEPTH 4\nMAXVAL 255\nTUPLTYPE RGB_ALPHA\nENDHDR\nabcdefgh~\
        width 4294967296\nP7\nWIDTH 4294967296\nHEIGHT 1\nDEPTH 4\nMAXVAL 255\nTUPLTYPE RGB_ALPHA\nENDHDR\n~\
        width 4294967297\nP7\nWIDTH 4294967297\nHEIGHT 1\nDEPTH 4\nMAXVAL 255\nTUPLTYPE RGB_ALPHA\nENDHDR\nabcd~\
        width 4294967298\nP7\nWIDTH 4294967298\nHEIGHT 1\nDEPTH 4\nMAXVAL 255\nTUPLTYPE RGB_ALPHA\nENDHDR\nabcdefgh~\
        width 18446744073709551615\nP7\nWIDTH 18446744073709551615\nHEIGHT 1\nDEPTH 4\nMAXVAL 255\nTUPLTYPE RGB_ALPHA\nENDHDR\nabcdefgh~\
        width 18446744073709551616\nP7\nWIDTH 18446744073709551616\nHEIGHT 1\nDEPTH 4\nMAXVAL 255\nTUPLTYPE RGB_ALPHA\nENDHDR\n~\
        width 18446744073709551617\nP7\nWIDTH 18446744073709551617\nHEIGHT 1\nDEPTH 4\nMAXVAL 255\nTUPLTYPE RGB_ALPHA\nENDHDR\nabcd~\
        height 0\nP7\nWIDTH 2\nHEIGHT 0\nDEPTH 4\nMAXVAL 255\nTUPLTYPE RGB_ALPHA\nENDHDR\n~\
        height 00000\nP7\nWIDTH 2\nHEIGHT 00000\nDEPTH 4\nMAXVAL 255\nTUPLTYPE RGB_ALPHA\nENDHDR\n~\
        height 16385\nP7\nWIDTH 2\nHEIGHT 16385\nDEPTH 4\nMAXVAL 255\nTUPLTYPE RGB_ALPHA\nENDHDR\nabcdefgh~\
        height 65537\nP7\nWIDTH 2\nHEIGHT 65537\nDEPTH 4\nMAXVAL 255\nTUPLTYPE RGB_ALPHA\nENDHDR\nabcdefgh~\
        height 4294967296\nP7\nWIDTH 2\nHEIGHT 4294967296\nDEPTH 4\nMAXVAL 255\nTUPLTYPE RGB_ALPHA\nENDHDR\n~\
        height 4294967297\nP7\nWIDTH 2\nHEIGHT 4294967297\nDEPTH 4\nMAXVAL 255\nTUPLTYPE RGB_ALPHA\nENDHDR\nabcdefgh~\
        height 18446744073709551617\nP7\nWIDTH 2\nHEIGHT 18446744073709551617\nDEPTH 4\nMAXVAL 255\nTUPLTYPE RGB_ALPHA\nENDHDR\nabcdefgh~\
        0 by 0\nP7\nWIDTH 0\nHEIGHT 0\nDEPTH 4\nMAXVAL 255\nTUPLTYPE RGB_ALPHA\nENDHDR\n~\
        16384 by 16385\nP7\nWIDTH 16384\nHEIGHT 16385\nDEPTH 4\nMAXVAL 255\nTUPLTYPE RGB_ALPHA\nENDHDR\nabcdefgh~\
        width of a hundred nines\nP7\n\
        WIDTH \
        9999999999999999999999999999999999999999999999999999999999999999999999999999999999999999999999999999\nHEIGHT 1\nDEPTH 4\nMAXVAL 255\nTUPLTYPE RGB_ALPHA\nENDHDR\nabcdefgh~\
        height of 1 and a hundred zeros\nP7\nWIDTH 2\n\
        HEIGHT \
        10000000000000000000000000000000000000000000000000000000000000000000000000000000000000000000000000000\nDEPTH 4\nMAXVAL 255\nTUPLTYPE RGB_ALPHA\nENDHDR\nabcdefgh~\
        width of a hundred zeros\nP7\n\
        WIDTH \
        0000000000000000000000000000000000000000000000000000000000000000000000000000000000000000000000000000\nHEIGHT 1\nDEPTH 4\nMAXVAL 255\nTUPLTYPE RGB_ALPHA\nENDHDR\n~",
    )
}

// An input that deserves several numbers: 11 is ahead of 12, 12 of 1, 1 of 3.
fn several(rt: &impl Print) -> io::Result<()> {
    each(
        rt,
        b"11 and 12: depth 3, GAMMA after it\nP7\nWIDTH 2\nHEIGHT 1\nDEPTH 3\nGAMMA 1\nMAXVAL 255\nTUPLTYPE RGB_ALPHA\nENDHDR\nabcdefgh~\
        11 and 12: no type, no height\nP7\nWIDTH 2\nDEPTH 4\nMAXVAL 255\nENDHDR\nabcdefgh~\
        11 and 12: maximum 0, ENDHDR X\nP7\nWIDTH 2\nHEIGHT 1\nDEPTH 4\nMAXVAL 0\nTUPLTYPE RGB_ALPHA\nENDHDR X\nabcdefgh~\
        11 and 12: RGB, no byte 10 at the end\nP7\nWIDTH 2\nHEIGHT 1\nDEPTH 4\nMAXVAL 255\nTUPLTYPE RGB\nENDHDR~\
        11 and 1: width 0, no maximum\nP7\nWIDTH 0\nHEIGHT 1\nDEPTH 4\nTUPLTYPE RGB_ALPHA\nENDHDR\nabcdefgh~\
        11 and 1: width 16385, height x\nP7\nWIDTH 16385\nHEIGHT x\nDEPTH 4\nMAXVAL 255\nTUPLTYPE RGB_ALPHA\nENDHDR\nabcdefgh~\
        11 and 3: WIDTH twice, a byte too many\nP7\nWIDTH 2\nWIDTH 2\nHEIGHT 1\nDEPTH 4\nMAXVAL 255\nTUPLTYPE RGB_ALPHA\nENDHDR\nabcdefghi~\
        11 and 3: P6, no pixels\nP6\nWIDTH 2\nHEIGHT 1\nDEPTH 4\nMAXVAL 255\nTUPLTYPE RGB_ALPHA\nENDHDR\n~\
        12 and 1: depth 3, width 0\nP7\nWIDTH 0\nHEIGHT 1\nDEPTH 3\nMAXVAL 255\nTUPLTYPE RGB_ALPHA\nENDHDR\nabcdefgh~\
        12 and 1: no type, height 16385\nP7\nWIDTH 2\nHEIGHT 16385\nDEPTH 4\nMAXVAL 255\nENDHDR\nabcdefgh~\
        12 and 1: maximum 65535, a side of 21 digits\nP7\nWIDTH 100000000000000000000\nHEIGHT 1\nDEPTH 4\nMAXVAL 65535\nTUPLTYPE RGB_ALPHA\nENDHDR\nabcdefgh~\
        12 and 3: depth 3 and its six bytes\nP7\nWIDTH 2\nHEIGHT 1\nDEPTH 3\nMAXVAL 255\nTUPLTYPE RGB_ALPHA\nENDHDR\nabcdef~\
        12 and 3: maximum 65535 and its sixteen bytes\nP7\nWIDTH 2\nHEIGHT 1\nDEPTH 4\nMAXVAL 65535\nTUPLTYPE RGB_ALPHA\nENDHDR\nabcdefghijklmnop~\
        12 and 3: type RGB, no pixels\nP7\nWIDTH 2\nHEIGHT 1\nDEPTH 4\nMAXVAL 255\nTUPLTYPE RGB\nENDHDR\n~\
        1 and 3: width 0, four bytes\nP7\nWIDTH 0\nHEIGHT 1\nDEPTH 4\nMAXVAL 255\nTUPLTYPE RGB_ALPHA\nENDHDR\nabcd~\
        1 and 3: height 16385, no pixels\nP7\nWIDTH 2\nHEIGHT 16385\nDEPTH 4\nMAXVAL 255\nTUPLTYPE RGB_ALPHA\nENDHDR\n~\
        11, 12, 1 and 3\nP7\nWIDTH 0\nHEIGHT 1\nDEPTH 3\nMAXVAL\nTUPLTYPE RGB_ALPHA\nENDHDR\nabc~\
        12, 1 and 3\nP7\nWIDTH 0\nHEIGHT 1\nDEPTH 3\nMAXVAL 255\nTUPLTYPE RGB_ALPHA\nENDHDR\nabc~",
    )
}

// 3: the header is read, and the pixels are not as many.
fn lengths(rt: &impl Print) -> io::Result<()> {
    each(
        rt,
        b"one byte missing\nP7\nWIDTH 2\nHEIGHT 1\nDEPTH 4\nMAXVAL 255\nTUPLTYPE RGB_ALPHA\nENDHDR\nabcdefg~\
        one byte too many\nP7\nWIDTH 2\nHEIGHT 1\nDEPTH 4\nMAXVAL 255\nTUPLTYPE RGB_ALPHA\nENDHDR\nabcdefghi~\
        byte 10 too many\nP7\nWIDTH 2\nHEIGHT 1\nDEPTH 4\nMAXVAL 255\nTUPLTYPE RGB_ALPHA\nENDHDR\nabcdefgh\n~\
        no pixels\nP7\nWIDTH 2\nHEIGHT 1\nDEPTH 4\nMAXVAL 255\nTUPLTYPE RGB_ALPHA\nENDHDR\n~\
        one pixel missing\nP7\nWIDTH 2\nHEIGHT 1\nDEPTH 4\nMAXVAL 255\nTUPLTYPE RGB_ALPHA\nENDHDR\nabcd~\
        one pixel too many\nP7\nWIDTH 2\nHEIGHT 1\nDEPTH 4\nMAXVAL 255\nTUPLTYPE RGB_ALPHA\nENDHDR\nabcdefghijkl~\
        three bytes to a pixel\nP7\nWIDTH 2\nHEIGHT 1\nDEPTH 4\nMAXVAL 255\nTUPLTYPE RGB_ALPHA\nENDHDR\nabcdef~\
        empty line after ENDHDR\nP7\nWIDTH 2\nHEIGHT 1\nDEPTH 4\nMAXVAL 255\nTUPLTYPE RGB_ALPHA\nENDHDR\n\nabcdefgh~\
        comment after ENDHDR\nP7\nWIDTH 2\nHEIGHT 1\nDEPTH 4\nMAXVAL 255\nTUPLTYPE RGB_ALPHA\nENDHDR\n# c\nabcdefgh~\
        ENDHDR twice\nP7\nWIDTH 2\nHEIGHT 1\nDEPTH 4\nMAXVAL 255\nTUPLTYPE RGB_ALPHA\nENDHDR\nENDHDR\nabcdefgh~\
        2 by 2, one row\nP7\nWIDTH 2\nHEIGHT 2\nDEPTH 4\nMAXVAL 255\nTUPLTYPE RGB_ALPHA\nENDHDR\nabcdefgh~",
    )
}
