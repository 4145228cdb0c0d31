// 11 by numbers and lines: no decimal number, a line left out, given twice, or of another word.
use crate::each;
use std::io;

pub(crate) fn trials(rt: &impl Print) -> io::Result<()> {
    signs(rt)?;
    letters(rt)?;
    missing_line(rt)?;
    twice(rt)?;
    other_lines(rt)
}

// A number with a sign, a point, a prefix.
fn signs(rt: &impl Print) -> io::Result<()> {
    each(
        rt,
        b"width +2\nP7\nWIDTH +2\nHEIGHT 1\nDEPTH 4\nMAXVAL 255\nTUPLTYPE RGB_ALPHA\nENDHDR\nabcdefgh~\
        height -1\nP7\nWIDTH 2\nHEIGHT -1\nDEPTH 4\nMAXVAL 255\nTUPLTYPE RGB_ALPHA\nENDHDR\nabcdefgh~\
        depth +4\nP7\nWIDTH 2\nHEIGHT 1\nDEPTH +4\nMAXVAL 255\nTUPLTYPE RGB_ALPHA\nENDHDR\nabcdefgh~\
        maximum -255\nP7\nWIDTH 2\nHEIGHT 1\nDEPTH 4\nMAXVAL -255\nTUPLTYPE RGB_ALPHA\nENDHDR\nabcdefgh~\
        width 2.0\nP7\nWIDTH 2.0\nHEIGHT 1\nDEPTH 4\nMAXVAL 255\nTUPLTYPE RGB_ALPHA\nENDHDR\nabcdefgh~\
        height 1.\nP7\nWIDTH 2\nHEIGHT 1.\nDEPTH 4\nMAXVAL 255\nTUPLTYPE RGB_ALPHA\nENDHDR\nabcdefgh~\
        depth .4\nP7\nWIDTH 2\nHEIGHT 1\nDEPTH .4\nMAXVAL 255\nTUPLTYPE RGB_ALPHA\nENDHDR\nabcdefgh~\
        width 0x2\nP7\nWIDTH 0x2\nHEIGHT 1\nDEPTH 4\nMAXVAL 255\nTUPLTYPE RGB_ALPHA\nENDHDR\nabcdefgh~\
        maximum 0xff\nP7\nWIDTH 2\nHEIGHT 1\nDEPTH 4\nMAXVAL 0xff\nTUPLTYPE RGB_ALPHA\nENDHDR\nabcdefgh~\
        maximum 2,55\nP7\nWIDTH 2\nHEIGHT 1\nDEPTH 4\nMAXVAL 2,55\nTUPLTYPE RGB_ALPHA\nENDHDR\nabcdefgh~",
    )
}

// A byte that is no digit, at each place of a number; after more than 64 bits.
fn letters(rt: &impl Print) -> io::Result<()> {
    each(
        rt,
        b"width a2\nP7\nWIDTH a2\nHEIGHT 1\nDEPTH 4\nMAXVAL 255\nTUPLTYPE RGB_ALPHA\nENDHDR\nabcdefgh~\
        width 2a\nP7\nWIDTH 2a\nHEIGHT 1\nDEPTH 4\nMAXVAL 255\nTUPLTYPE RGB_ALPHA\nENDHDR\nabcdefgh~\
        height 0a1\nP7\nWIDTH 2\nHEIGHT 0a1\nDEPTH 4\nMAXVAL 255\nTUPLTYPE RGB_ALPHA\nENDHDR\nabcdefgh~\
        height one\nP7\nWIDTH 2\nHEIGHT one\nDEPTH 4\nMAXVAL 255\nTUPLTYPE RGB_ALPHA\nENDHDR\nabcdefgh~\
        depth 4u\nP7\nWIDTH 2\nHEIGHT 1\nDEPTH 4u\nMAXVAL 255\nTUPLTYPE RGB_ALPHA\nENDHDR\nabcdefgh~\
        maximum 2 55\nP7\nWIDTH 2\nHEIGHT 1\nDEPTH 4\nMAXVAL 2 55\nTUPLTYPE RGB_ALPHA\nENDHDR\nabcdefgh~\
        maximum 25_5\nP7\nWIDTH 2\nHEIGHT 1\nDEPTH 4\nMAXVAL 25_5\nTUPLTYPE RGB_ALPHA\nENDHDR\nabcdefgh~\
        maximum FF\nP7\nWIDTH 2\nHEIGHT 1\nDEPTH 4\nMAXVAL FF\nTUPLTYPE RGB_ALPHA\nENDHDR\nabcdefgh~\
        depth 4 in brackets\nP7\nWIDTH 2\nHEIGHT 1\nDEPTH (4)\nMAXVAL 255\nTUPLTYPE RGB_ALPHA\nENDHDR\nabcdefgh~\
        maximum 1e2\nP7\nWIDTH 2\nHEIGHT 1\nDEPTH 4\nMAXVAL 1e2\nTUPLTYPE RGB_ALPHA\nENDHDR\nabcdefgh~\
        width, byte 47\nP7\nWIDTH 2/\nHEIGHT 1\nDEPTH 4\nMAXVAL 255\nTUPLTYPE RGB_ALPHA\nENDHDR\nabcdefgh~\
        width, byte 58\nP7\nWIDTH :\nHEIGHT 1\nDEPTH 4\nMAXVAL 255\nTUPLTYPE RGB_ALPHA\nENDHDR\nabcdefgh~\
        depth, byte 52 + 128\nP7\nWIDTH 2\nHEIGHT 1\nDEPTH \xb4\nMAXVAL 255\nTUPLTYPE RGB_ALPHA\nENDHDR\nabcdefgh~\
        height, byte 0\nP7\nWIDTH 2\nHEIGHT 1\x00\nDEPTH 4\nMAXVAL 255\nTUPLTYPE RGB_ALPHA\nENDHDR\nabcdefgh~\
        height, digit of two bytes\nP7\nWIDTH 2\nHEIGHT \xd9\xa1\nDEPTH 4\nMAXVAL 255\nTUPLTYPE RGB_ALPHA\nENDHDR\nabcdefgh~\
        width 4294967298x\nP7\nWIDTH 4294967298x\nHEIGHT 1\nDEPTH 4\nMAXVAL 255\nTUPLTYPE RGB_ALPHA\nENDHDR\nabcdefgh~\
        width 18446744073709551618-\nP7\nWIDTH 18446744073709551618-\nHEIGHT 1\nDEPTH 4\nMAXVAL 255\nTUPLTYPE RGB_ALPHA\nENDHDR\nabcdefgh~\
        depth 18446744073709551620.\nP7\nWIDTH 2\nHEIGHT 1\nDEPTH 18446744073709551620.\nMAXVAL 255\nTUPLTYPE RGB_ALPHA\nENDHDR\nabcdefgh~\
        a hundred digits and a letter\nP7\n\
        WIDTH \
        0000000000000000000000000000000000000000000000000000000000000000000000000000000000000000000000000002x\nHEIGHT 1\nDEPTH 4\nMAXVAL 255\nTUPLTYPE RGB_ALPHA\nENDHDR\nabcdefgh~",
    )
}

// A line left out.
fn missing_line(rt: &impl Print) -> io::Result<()> {
    each(
        rt,
        b"WIDTH left out\nP7\nHEIGHT 1\nDEPTH 4\nMAXVAL 255\nTUPLTYPE RGB_ALPHA\nENDHDR\nabcdefgh~\
        HEIGHT left out\nP7\nWIDTH 2\nDEPTH 4\nMAXVAL 255\nTUPLTYPE RGB_ALPHA\nENDHDR\nabcdefgh~\
        DEPTH left out\nP7\nWIDTH 2\nHEIGHT 1\nMAXVAL 255\nTUPLTYPE RGB_ALPHA\nENDHDR\nabcdefgh~\
        MAXVAL left out\nP7\nWIDTH 2\nHEIGHT 1\nDEPTH 4\nTUPLTYPE RGB_ALPHA\nENDHDR\nabcdefgh~\
        all but TUPLTYPE left out\nP7\nTUPLTYPE RGB_ALPHA\nENDHDR\nabcdefgh~\
        all but WIDTH left out\nP7\nWIDTH 2\nENDHDR\nabcdefgh~\
        WIDTH in a comment\nP7\n#WIDTH 2\nHEIGHT 1\nDEPTH 4\nMAXVAL 255\nTUPLTYPE RGB_ALPHA\nENDHDR\nabcdefgh~\
        HEIGHT in the comment before it\nP7\nWIDTH 2\n# c \rHEIGHT 1\nDEPTH 4\nMAXVAL 255\nTUPLTYPE RGB_ALPHA\nENDHDR\nabcdefgh~",
    )
}

// A line given twice, with the same number and with another.
fn twice(rt: &impl Print) -> io::Result<()> {
    each(
        rt,
        b"WIDTH twice\nP7\nWIDTH 2\nWIDTH 2\nHEIGHT 1\nDEPTH 4\nMAXVAL 255\nTUPLTYPE RGB_ALPHA\nENDHDR\nabcdefgh~\
        HEIGHT twice\nP7\nWIDTH 2\nHEIGHT 1\nHEIGHT 1\nDEPTH 4\nMAXVAL 255\nTUPLTYPE RGB_ALPHA\nENDHDR\nabcdefgh~\
        DEPTH twice\nP7\nWIDTH 2\nHEIGHT 1\nDEPTH 4\nDEPTH 4\nMAXVAL 255\nTUPLTYPE RGB_ALPHA\nENDHDR\nabcdefgh~\
        MAXVAL twice\nP7\nWIDTH 2\nHEIGHT 1\nDEPTH 4\nMAXVAL 255\nMAXVAL 255\nTUPLTYPE RGB_ALPHA\nENDHDR\nabcdefgh~\
        WIDTH twice, first and last\nP7\nWIDTH 2\nHEIGHT 1\nDEPTH 4\nMAXVAL 255\nTUPLTYPE RGB_ALPHA\nWIDTH 2\nENDHDR\nabcdefgh~\
        HEIGHT 1 and 01\nP7\nHEIGHT 01\nWIDTH 2\nHEIGHT 1\nDEPTH 4\nMAXVAL 255\nTUPLTYPE RGB_ALPHA\nENDHDR\nabcdefgh~\
        DEPTH three times\nP7\nWIDTH 2\nHEIGHT 1\nDEPTH 4\nDEPTH 4\nDEPTH 4\nMAXVAL 255\nTUPLTYPE RGB_ALPHA\nENDHDR\nabcdefgh~\
        WIDTH 2 and 3\nP7\nWIDTH 2\nWIDTH 3\nHEIGHT 1\nDEPTH 4\nMAXVAL 255\nTUPLTYPE RGB_ALPHA\nENDHDR\nabcdefgh~\
        HEIGHT 2 and 1\nP7\nWIDTH 2\nHEIGHT 2\nHEIGHT 1\nDEPTH 4\nMAXVAL 255\nTUPLTYPE RGB_ALPHA\nENDHDR\nabcdefgh~\
        DEPTH 4 and 3\nP7\nWIDTH 2\nHEIGHT 1\nDEPTH 4\nMAXVAL 255\nTUPLTYPE RGB_ALPHA\nDEPTH 3\nENDHDR\nabcdefgh~\
        MAXVAL 254 and 255\nP7\nMAXVAL 254\nWIDTH 2\nHEIGHT 1\nDEPTH 4\nMAXVAL 255\nTUPLTYPE RGB_ALPHA\nENDHDR\nabcdefgh~\
        WIDTH 0 and 2\nP7\nWIDTH 0\nWIDTH 2\nHEIGHT 1\nDEPTH 4\nMAXVAL 255\nTUPLTYPE RGB_ALPHA\nENDHDR\nabcdefgh~\
        DEPTH 0 twice\nP7\nWIDTH 2\nHEIGHT 1\nDEPTH 0\nDEPTH 0\nMAXVAL 255\nTUPLTYPE RGB_ALPHA\nENDHDR\nabcdefgh~\
        HEIGHT 4294967295 and 1\nP7\nHEIGHT 4294967295\nWIDTH 2\nHEIGHT 1\nDEPTH 4\nMAXVAL 255\nTUPLTYPE RGB_ALPHA\nENDHDR\nabcdefgh~",
    )
}

// A # that begins no line; a line of another word, at each place.
fn other_lines(rt: &impl Print) -> io::Result<()> {
    each(
        rt,
        b"blank before #\nP7\n # c\nWIDTH 2\nHEIGHT 1\nDEPTH 4\nMAXVAL 255\nTUPLTYPE RGB_ALPHA\nENDHDR\nabcdefgh~\
        byte 9 before #\nP7\nWIDTH 2\nHEIGHT 1\n\t# c\nDEPTH 4\nMAXVAL 255\nTUPLTYPE RGB_ALPHA\nENDHDR\nabcdefgh~\
        byte 13 before #\nP7\nWIDTH 2\nHEIGHT 1\nDEPTH 4\nMAXVAL 255\nTUPLTYPE RGB_ALPHA\n\r#\nENDHDR\nabcdefgh~\
        # after WIDTH 2\nP7\nWIDTH 2 # c\nHEIGHT 1\nDEPTH 4\nMAXVAL 255\nTUPLTYPE RGB_ALPHA\nENDHDR\nabcdefgh~\
        # after ENDHDR\nP7\nWIDTH 2\nHEIGHT 1\nDEPTH 4\nMAXVAL 255\nTUPLTYPE RGB_ALPHA\nENDHDR # c\nabcdefgh~\
        ENDHDR#\nP7\nWIDTH 2\nHEIGHT 1\nDEPTH 4\nMAXVAL 255\nTUPLTYPE RGB_ALPHA\nENDHDR#\nabcdefgh~\
        # between the words\nP7\nWIDTH 2\nHEIGHT # 1\nDEPTH 4\nMAXVAL 255\nTUPLTYPE RGB_ALPHA\nENDHDR\nabcdefgh~\
        # before the number\nP7\nWIDTH 2\nHEIGHT 1\nDEPTH #4\nMAXVAL 255\nTUPLTYPE RGB_ALPHA\nENDHDR\nabcdefgh~\
        # after the number\nP7\nWIDTH 2\nHEIGHT 1\nDEPTH 4\nMAXVAL 255#\nTUPLTYPE RGB_ALPHA\nENDHDR\nabcdefgh~\
        % before a comment\nP7\nWIDTH 2\n% c\nHEIGHT 1\nDEPTH 4\nMAXVAL 255\nTUPLTYPE RGB_ALPHA\nENDHDR\nabcdefgh~\
        LENGTH after the first line\nP7\nLENGTH 3\nWIDTH 2\nHEIGHT 1\nDEPTH 4\nMAXVAL 255\nTUPLTYPE RGB_ALPHA\nENDHDR\nabcdefgh~\
        X after WIDTH\nP7\nWIDTH 2\nX\nHEIGHT 1\nDEPTH 4\nMAXVAL 255\nTUPLTYPE RGB_ALPHA\nENDHDR\nabcdefgh~\
        a full stop after DEPTH\nP7\nWIDTH 2\nHEIGHT 1\nDEPTH 4\n.\nMAXVAL 255\nTUPLTYPE RGB_ALPHA\nENDHDR\nabcdefgh~\
        GAMMA before ENDHDR\nP7\nWIDTH 2\nHEIGHT 1\nDEPTH 4\nMAXVAL 255\nTUPLTYPE RGB_ALPHA\nGAMMA 1\nENDHDR\nabcdefgh~\
        byte 255 after HEIGHT\nP7\nWIDTH 2\nHEIGHT 1\n\xff\nDEPTH 4\nMAXVAL 255\nTUPLTYPE RGB_ALPHA\nENDHDR\nabcdefgh~\
        2 1 before ENDHDR\nP7\nWIDTH 2\nHEIGHT 1\nDEPTH 4\nMAXVAL 255\nTUPLTYPE RGB_ALPHA\n2 1\nENDHDR\nabcdefgh~",
    )
}
