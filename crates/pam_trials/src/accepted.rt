// Headers that are taken: orders, comments, blanks, zeros, and pixels that look like a header.
use crate::each;
use std::io;

pub(crate) fn trials(rt: &impl Print) -> io::Result<()> {
    orders(rt)?;
    comments(rt)?;
    long_ones(rt)?;
    blank_lines(rt)?;
    blanks(rt)?;
    zeros(rt)?;
    first_pixels(rt)
}

// The lines in any order.
fn orders(rt: &impl Print) -> io::Result<()> {
    each(
        rt,
        b"plain\nP7\nWIDTH 2\nHEIGHT 1\nDEPTH 4\nMAXVAL 255\nTUPLTYPE RGB_ALPHA\nENDHDR\nabcdefgh~\
        type first\nP7\nTUPLTYPE RGB_ALPHA\nWIDTH 2\nHEIGHT 1\nDEPTH 4\nMAXVAL 255\nENDHDR\nabcdefgh~\
        height first\nP7\nHEIGHT 1\nWIDTH 2\nDEPTH 4\nMAXVAL 255\nTUPLTYPE RGB_ALPHA\nENDHDR\nabcdefgh~\
        all turned round\nP7\nTUPLTYPE RGB_ALPHA\nMAXVAL 255\nDEPTH 4\nHEIGHT 1\nWIDTH 2\nENDHDR\nabcdefgh~\
        maximum first, width last\nP7\nMAXVAL 255\nTUPLTYPE RGB_ALPHA\nDEPTH 4\nHEIGHT 1\nWIDTH 2\nENDHDR\nabcdefgh~\
        type between the sides\nP7\nWIDTH 2\nTUPLTYPE RGB_ALPHA\nHEIGHT 1\nMAXVAL 255\nDEPTH 4\nENDHDR\nabcdefgh~",
    )
}

// Comments at each place, of any bytes.
fn comments(rt: &impl Print) -> io::Result<()> {
    each(
        rt,
        b"comment after the first line\nP7\n# c\nWIDTH 2\nHEIGHT 1\nDEPTH 4\nMAXVAL 255\nTUPLTYPE RGB_ALPHA\nENDHDR\nabcdefgh~\
        comment after WIDTH\nP7\nWIDTH 2\n# c\nHEIGHT 1\nDEPTH 4\nMAXVAL 255\nTUPLTYPE RGB_ALPHA\nENDHDR\nabcdefgh~\
        comment after HEIGHT\nP7\nWIDTH 2\nHEIGHT 1\n# c\nDEPTH 4\nMAXVAL 255\nTUPLTYPE RGB_ALPHA\nENDHDR\nabcdefgh~\
        comment after DEPTH\nP7\nWIDTH 2\nHEIGHT 1\nDEPTH 4\n# c\nMAXVAL 255\nTUPLTYPE RGB_ALPHA\nENDHDR\nabcdefgh~\
        comment after MAXVAL\nP7\nWIDTH 2\nHEIGHT 1\nDEPTH 4\nMAXVAL 255\n# c\nTUPLTYPE RGB_ALPHA\nENDHDR\nabcdefgh~\
        comment before ENDHDR\nP7\nWIDTH 2\nHEIGHT 1\nDEPTH 4\nMAXVAL 255\nTUPLTYPE RGB_ALPHA\n# c\nENDHDR\nabcdefgh~\
        comment of # alone\nP7\nWIDTH 2\n#\nHEIGHT 1\nDEPTH 4\nMAXVAL 255\nTUPLTYPE RGB_ALPHA\nENDHDR\nabcdefgh~\
        comment that says WIDTH\nP7\nWIDTH 2\n#WIDTH 3\nHEIGHT 1\nDEPTH 4\nMAXVAL 255\nTUPLTYPE RGB_ALPHA\nENDHDR\nabcdefgh~\
        comment that says ENDHDR\nP7\n# ENDHDR\nWIDTH 2\nHEIGHT 1\nDEPTH 4\nMAXVAL 255\nTUPLTYPE RGB_ALPHA\nENDHDR\nabcdefgh~\
        comment of bytes 0, 9, 13, 255\nP7\nWIDTH 2\nHEIGHT 1\n#\x00\t\xff\r\nDEPTH 4\nMAXVAL 255\nTUPLTYPE RGB_ALPHA\nENDHDR\nabcdefgh~\
        three comments and none between\nP7\n#\n##\n# #\nWIDTH 2\nHEIGHT 1\nDEPTH 4\nMAXVAL 255\nTUPLTYPE RGB_ALPHA\nENDHDR\nabcdefgh~",
    )
}

// More than any buffer of one line would hold.
fn long_ones(rt: &impl Print) -> io::Result<()> {
    each(
        rt,
        b"comment of 600 bytes\nP7\nWIDTH 2\n\
        #123456789 abcdefghij klmnopqrstuvwxyz ABCDEFGHIJKLMNOPQRSTUVWXYZ WIDTH HEIGHT DEPTH MAXVAL ENDHDR#.\
        0123456789 abcdefghij klmnopqrstuvwxyz ABCDEFGHIJKLMNOPQRSTUVWXYZ WIDTH HEIGHT DEPTH MAXVAL ENDHDR#.\
        0123456789 abcdefghij klmnopqrstuvwxyz ABCDEFGHIJKLMNOPQRSTUVWXYZ WIDTH HEIGHT DEPTH MAXVAL ENDHDR#.\
        0123456789 abcdefghij klmnopqrstuvwxyz ABCDEFGHIJKLMNOPQRSTUVWXYZ WIDTH HEIGHT DEPTH MAXVAL ENDHDR#.\
        0123456789 abcdefghij klmnopqrstuvwxyz ABCDEFGHIJKLMNOPQRSTUVWXYZ WIDTH HEIGHT DEPTH MAXVAL ENDHDR#.\
        0123456789 abcdefghij klmnopqrstuvwxyz ABCDEFGHIJKLMNOPQRSTUVWXYZ WIDTH HEIGHT DEPTH MAXVAL ENDHDR#.\nHEIGHT 1\nDEPTH 4\nMAXVAL 255\nTUPLTYPE RGB_ALPHA\nENDHDR\nabcdefgh~\
        a hundred zeros before the width\nP7\n\
        WIDTH \
        00000000000000000000000000000000000000000000000000000000000000000000000000000000000000000000000000002\nHEIGHT 1\nDEPTH 4\nMAXVAL 255\nTUPLTYPE RGB_ALPHA\nENDHDR\nabcdefgh~\
        a hundred zeros before the depth\nP7\nWIDTH 2\nHEIGHT 1\n\
        DEPTH \
        00000000000000000000000000000000000000000000000000000000000000000000000000000000000000000000000000004\nMAXVAL 255\nTUPLTYPE RGB_ALPHA\nENDHDR\nabcdefgh~\
        a hundred blanks\nP7\n\
        WIDTH\t \t \t \t \t \t \t \t \t \t \t \t \t \t \t \t \t \t \t \t \t \t \t \t \t \
        \r \r \r \r \r \r \r \r \r \r \r \r \r \r \r \r \r \r \r \r \r \r \r \r \r 2\nHEIGHT 1\nDEPTH 4\nMAXVAL 255\nTUPLTYPE RGB_ALPHA\nENDHDR\nabcdefgh~",
    )
}

// Lines without words.
fn blank_lines(rt: &impl Print) -> io::Result<()> {
    each(
        rt,
        b"empty line after the first\nP7\n\nWIDTH 2\nHEIGHT 1\nDEPTH 4\nMAXVAL 255\nTUPLTYPE RGB_ALPHA\nENDHDR\nabcdefgh~\
        empty line between\nP7\nWIDTH 2\nHEIGHT 1\n\nDEPTH 4\nMAXVAL 255\nTUPLTYPE RGB_ALPHA\nENDHDR\nabcdefgh~\
        empty line before ENDHDR\nP7\nWIDTH 2\nHEIGHT 1\nDEPTH 4\nMAXVAL 255\nTUPLTYPE RGB_ALPHA\n\nENDHDR\nabcdefgh~\
        two empty lines\nP7\nWIDTH 2\n\n\nHEIGHT 1\nDEPTH 4\nMAXVAL 255\nTUPLTYPE RGB_ALPHA\nENDHDR\nabcdefgh~\
        line of byte 9\nP7\nWIDTH 2\n\t\nHEIGHT 1\nDEPTH 4\nMAXVAL 255\nTUPLTYPE RGB_ALPHA\nENDHDR\nabcdefgh~\
        line of byte 11\nP7\nWIDTH 2\nHEIGHT 1\n\x0b\nDEPTH 4\nMAXVAL 255\nTUPLTYPE RGB_ALPHA\nENDHDR\nabcdefgh~\
        line of byte 12\nP7\nWIDTH 2\nHEIGHT 1\nDEPTH 4\n\x0c\nMAXVAL 255\nTUPLTYPE RGB_ALPHA\nENDHDR\nabcdefgh~\
        line of byte 13\nP7\nWIDTH 2\nHEIGHT 1\nDEPTH 4\nMAXVAL 255\n\r\nTUPLTYPE RGB_ALPHA\nENDHDR\nabcdefgh~\
        line of byte 32\nP7\nWIDTH 2\nHEIGHT 1\nDEPTH 4\nMAXVAL 255\nTUPLTYPE RGB_ALPHA\n \nENDHDR\nabcdefgh~\
        line of all five blanks\nP7\nWIDTH 2\nHEIGHT 1\nDEPTH 4\n\t\x0b\x0c\r \nMAXVAL 255\nTUPLTYPE RGB_ALPHA\nENDHDR\nabcdefgh~",
    )
}

// Each blank before, between and after the words.
fn blanks(rt: &impl Print) -> io::Result<()> {
    each(
        rt,
        b"byte 9 before WIDTH\nP7\n\tWIDTH 2\nHEIGHT 1\nDEPTH 4\nMAXVAL 255\nTUPLTYPE RGB_ALPHA\nENDHDR\nabcdefgh~\
        byte 11 before HEIGHT\nP7\nWIDTH 2\n\x0bHEIGHT 1\nDEPTH 4\nMAXVAL 255\nTUPLTYPE RGB_ALPHA\nENDHDR\nabcdefgh~\
        byte 12 before DEPTH\nP7\nWIDTH 2\nHEIGHT 1\n\x0cDEPTH 4\nMAXVAL 255\nTUPLTYPE RGB_ALPHA\nENDHDR\nabcdefgh~\
        byte 13 before MAXVAL\nP7\nWIDTH 2\nHEIGHT 1\nDEPTH 4\n\rMAXVAL 255\nTUPLTYPE RGB_ALPHA\nENDHDR\nabcdefgh~\
        byte 32 before TUPLTYPE\nP7\nWIDTH 2\nHEIGHT 1\nDEPTH 4\nMAXVAL 255\n TUPLTYPE RGB_ALPHA\nENDHDR\nabcdefgh~\
        byte 32 before ENDHDR\nP7\nWIDTH 2\nHEIGHT 1\nDEPTH 4\nMAXVAL 255\nTUPLTYPE RGB_ALPHA\n ENDHDR\nabcdefgh~\
        byte 12 in WIDTH\nP7\nWIDTH\x0c2\nHEIGHT 1\nDEPTH 4\nMAXVAL 255\nTUPLTYPE RGB_ALPHA\nENDHDR\nabcdefgh~\
        byte 13 in HEIGHT\nP7\nWIDTH 2\nHEIGHT\r1\nDEPTH 4\nMAXVAL 255\nTUPLTYPE RGB_ALPHA\nENDHDR\nabcdefgh~\
        byte 32 in DEPTH\nP7\nWIDTH 2\nHEIGHT 1\nDEPTH 4\nMAXVAL 255\nTUPLTYPE RGB_ALPHA\nENDHDR\nabcdefgh~\
        byte 9 in MAXVAL\nP7\nWIDTH 2\nHEIGHT 1\nDEPTH 4\nMAXVAL\t255\nTUPLTYPE RGB_ALPHA\nENDHDR\nabcdefgh~\
        byte 11 in TUPLTYPE\nP7\nWIDTH 2\nHEIGHT 1\nDEPTH 4\nMAXVAL 255\nTUPLTYPE\x0bRGB_ALPHA\nENDHDR\nabcdefgh~\
        byte 13 after WIDTH\nP7\nWIDTH 2\r\nHEIGHT 1\nDEPTH 4\nMAXVAL 255\nTUPLTYPE RGB_ALPHA\nENDHDR\nabcdefgh~\
        byte 32 after HEIGHT\nP7\nWIDTH 2\nHEIGHT 1 \nDEPTH 4\nMAXVAL 255\nTUPLTYPE RGB_ALPHA\nENDHDR\nabcdefgh~\
        byte 9 after DEPTH\nP7\nWIDTH 2\nHEIGHT 1\nDEPTH 4\t\nMAXVAL 255\nTUPLTYPE RGB_ALPHA\nENDHDR\nabcdefgh~\
        byte 11 after MAXVAL\nP7\nWIDTH 2\nHEIGHT 1\nDEPTH 4\nMAXVAL 255\x0b\nTUPLTYPE RGB_ALPHA\nENDHDR\nabcdefgh~\
        byte 12 after TUPLTYPE\nP7\nWIDTH 2\nHEIGHT 1\nDEPTH 4\nMAXVAL 255\nTUPLTYPE RGB_ALPHA\x0c\nENDHDR\nabcdefgh~\
        byte 32 after ENDHDR\nP7\nWIDTH 2\nHEIGHT 1\nDEPTH 4\nMAXVAL 255\nTUPLTYPE RGB_ALPHA\nENDHDR \nabcdefgh~\
        byte 13 at each line's end\nP7\nWIDTH 2\r\nHEIGHT 1\r\nDEPTH 4\r\nMAXVAL 255\r\nTUPLTYPE RGB_ALPHA\r\nENDHDR\r\nabcdefgh~",
    )
}

// Zeros before a number, and the largest sides. A header without its pixels is read too.
fn zeros(rt: &impl Print) -> io::Result<()> {
    each(
        rt,
        b"depth 0004\nP7\nWIDTH 2\nHEIGHT 1\nDEPTH 0004\nMAXVAL 255\nTUPLTYPE RGB_ALPHA\nENDHDR\nabcdefgh~\
        maximum 000255\nP7\nWIDTH 2\nHEIGHT 1\nDEPTH 4\nMAXVAL 000255\nTUPLTYPE RGB_ALPHA\nENDHDR\nabcdefgh~\
        width 02\nP7\nWIDTH 02\nHEIGHT 1\nDEPTH 4\nMAXVAL 255\nTUPLTYPE RGB_ALPHA\nENDHDR\nabcdefgh~\
        16384 by 1, no pixels\nP7\nWIDTH 16384\nHEIGHT 1\nDEPTH 4\nMAXVAL 255\nTUPLTYPE RGB_ALPHA\nENDHDR\n~\
        1 by 16384, no pixels\nP7\nWIDTH 1\nHEIGHT 16384\nDEPTH 4\nMAXVAL 255\nTUPLTYPE RGB_ALPHA\nENDHDR\n~\
        16384 by 16384, no pixels\nP7\nWIDTH 16384\nHEIGHT 16384\nDEPTH 4\nMAXVAL 255\nTUPLTYPE RGB_ALPHA\nENDHDR\n~\
        1 by 00016384, no pixels\nP7\nWIDTH 1\nHEIGHT 00016384\nDEPTH 4\nMAXVAL 255\nTUPLTYPE RGB_ALPHA\nENDHDR\n~",
    )
}

// Pixels that look like a header.
fn first_pixels(rt: &impl Print) -> io::Result<()> {
    each(
        rt,
        b"first pixel byte 10\nP7\nWIDTH 2\nHEIGHT 1\nDEPTH 4\nMAXVAL 255\nTUPLTYPE RGB_ALPHA\nENDHDR\n\nbcdefgh~\
        first pixel byte #\nP7\nWIDTH 2\nHEIGHT 1\nDEPTH 4\nMAXVAL 255\nTUPLTYPE RGB_ALPHA\nENDHDR\n#bcdefg\n~\
        first pixel byte 32\nP7\nWIDTH 2\nHEIGHT 1\nDEPTH 4\nMAXVAL 255\nTUPLTYPE RGB_ALPHA\nENDHDR\n bcdefgh~\
        pixels that say WIDTH 3\nP7\nWIDTH 2\nHEIGHT 1\nDEPTH 4\nMAXVAL 255\nTUPLTYPE RGB_ALPHA\nENDHDR\nWIDTH 3\n~\
        pixels that say ENDHDR\nP7\nWIDTH 2\nHEIGHT 1\nDEPTH 4\nMAXVAL 255\nTUPLTYPE RGB_ALPHA\nENDHDR\nENDHDR\n\n~\
        pixels of bytes 0 and 255\nP7\nWIDTH 2\nHEIGHT 1\nDEPTH 4\nMAXVAL 255\nTUPLTYPE RGB_ALPHA\nENDHDR\n\x00\x00\x00\x00\xff\xff\xff\xff~\
        2 by 2\nP7\nWIDTH 2\nHEIGHT 2\nDEPTH 4\nMAXVAL 255\nTUPLTYPE RGB_ALPHA\nENDHDR\nabcdefghijklmnop~",
    )
}
