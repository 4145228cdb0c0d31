// 11 at the edges of a header: the first line, its end, and an input that stops before it.
use crate::each;
use std::io;

pub(crate) fn trials(rt: &impl Print) -> io::Result<()> {
    first_line(rt)?;
    beside_first(rt)?;
    stops(rt)?;
    no_end(rt)
}

// No first line, half of one, another.
fn first_line(rt: &impl Print) -> io::Result<()> {
    each(
        rt,
        b"empty input\n~\
        byte 10 alone\n\n~\
        P and nothing\nP~\
        P7 and nothing\nP7~\
        P7 and a blank, no line end\nP7 ~\
        first line left out\nWIDTH 2\nHEIGHT 1\nDEPTH 4\nMAXVAL 255\nTUPLTYPE RGB_ALPHA\nENDHDR\nabcdefgh~\
        empty first line\n\nP7\nWIDTH 2\nHEIGHT 1\nDEPTH 4\nMAXVAL 255\nTUPLTYPE RGB_ALPHA\nENDHDR\nabcdefgh~\
        comment before P7\n# c\nP7\nWIDTH 2\nHEIGHT 1\nDEPTH 4\nMAXVAL 255\nTUPLTYPE RGB_ALPHA\nENDHDR\nabcdefgh~\
        bytes 13 for line ends\nP7\rWIDTH 2\rHEIGHT 1\rDEPTH 4\rMAXVAL 255\rTUPLTYPE RGB_ALPHA\rENDHDR\rabcdefgh~\
        P6\nP6\nWIDTH 2\nHEIGHT 1\nDEPTH 4\nMAXVAL 255\nTUPLTYPE RGB_ALPHA\nENDHDR\nabcdefgh~\
        P8\nP8\nWIDTH 2\nHEIGHT 1\nDEPTH 4\nMAXVAL 255\nTUPLTYPE RGB_ALPHA\nENDHDR\nabcdefgh~\
        p7\np7\nWIDTH 2\nHEIGHT 1\nDEPTH 4\nMAXVAL 255\nTUPLTYPE RGB_ALPHA\nENDHDR\nabcdefgh~\
        P alone\nP\nWIDTH 2\nHEIGHT 1\nDEPTH 4\nMAXVAL 255\nTUPLTYPE RGB_ALPHA\nENDHDR\nabcdefgh~\
        7P\n7P\nWIDTH 2\nHEIGHT 1\nDEPTH 4\nMAXVAL 255\nTUPLTYPE RGB_ALPHA\nENDHDR\nabcdefgh~\
        P77\nP77\nWIDTH 2\nHEIGHT 1\nDEPTH 4\nMAXVAL 255\nTUPLTYPE RGB_ALPHA\nENDHDR\nabcdefgh~\
        PP7\nPP7\nWIDTH 2\nHEIGHT 1\nDEPTH 4\nMAXVAL 255\nTUPLTYPE RGB_ALPHA\nENDHDR\nabcdefgh~\
        P07\nP07\nWIDTH 2\nHEIGHT 1\nDEPTH 4\nMAXVAL 255\nTUPLTYPE RGB_ALPHA\nENDHDR\nabcdefgh~\
        O7\nO7\nWIDTH 2\nHEIGHT 1\nDEPTH 4\nMAXVAL 255\nTUPLTYPE RGB_ALPHA\nENDHDR\nabcdefgh~",
    )
}

// P7 and something beside it.
fn beside_first(rt: &impl Print) -> io::Result<()> {
    each(
        rt,
        b"blank before P7\n P7\nWIDTH 2\nHEIGHT 1\nDEPTH 4\nMAXVAL 255\nTUPLTYPE RGB_ALPHA\nENDHDR\nabcdefgh~\
        blank after P7\nP7 \nWIDTH 2\nHEIGHT 1\nDEPTH 4\nMAXVAL 255\nTUPLTYPE RGB_ALPHA\nENDHDR\nabcdefgh~\
        byte 13 after P7\nP7\r\nWIDTH 2\nHEIGHT 1\nDEPTH 4\nMAXVAL 255\nTUPLTYPE RGB_ALPHA\nENDHDR\nabcdefgh~\
        byte 9 before P7\n\tP7\nWIDTH 2\nHEIGHT 1\nDEPTH 4\nMAXVAL 255\nTUPLTYPE RGB_ALPHA\nENDHDR\nabcdefgh~\
        byte 0 after P7\nP7\x00\nWIDTH 2\nHEIGHT 1\nDEPTH 4\nMAXVAL 255\nTUPLTYPE RGB_ALPHA\nENDHDR\nabcdefgh~\
        comment after P7\nP7 # c\nWIDTH 2\nHEIGHT 1\nDEPTH 4\nMAXVAL 255\nTUPLTYPE RGB_ALPHA\nENDHDR\nabcdefgh~\
        WIDTH in the first line\nP7 WIDTH 2\nHEIGHT 1\nDEPTH 4\nMAXVAL 255\nTUPLTYPE RGB_ALPHA\nENDHDR\nabcdefgh~\
        P7 twice\nP7\nP7\nWIDTH 2\nHEIGHT 1\nDEPTH 4\nMAXVAL 255\nTUPLTYPE RGB_ALPHA\nENDHDR\nabcdefgh~\
        P7 before ENDHDR\nP7\nWIDTH 2\nHEIGHT 1\nDEPTH 4\nMAXVAL 255\nTUPLTYPE RGB_ALPHA\nP7\nENDHDR\nabcdefgh~\
        bytes 239, 187, 191 before P7\n\xef\xbb\xbfP7\nWIDTH 2\nHEIGHT 1\nDEPTH 4\nMAXVAL 255\nTUPLTYPE RGB_ALPHA\nENDHDR\nabcdefgh~",
    )
}

// An input that stops after each line and inside it.
fn stops(rt: &impl Print) -> io::Result<()> {
    each(
        rt,
        b"ends after the first line\nP7\n~\
        ends after WIDTH\nP7\nWIDTH 2\n~\
        ends after HEIGHT\nP7\nWIDTH 2\nHEIGHT 1\n~\
        ends after DEPTH\nP7\nWIDTH 2\nHEIGHT 1\nDEPTH 4\n~\
        ends after MAXVAL\nP7\nWIDTH 2\nHEIGHT 1\nDEPTH 4\nMAXVAL 255\n~\
        ends after TUPLTYPE\nP7\nWIDTH 2\nHEIGHT 1\nDEPTH 4\nMAXVAL 255\nTUPLTYPE RGB_ALPHA\n~\
        ends after an empty line\nP7\nWIDTH 2\nHEIGHT 1\nDEPTH 4\nMAXVAL 255\nTUPLTYPE RGB_ALPHA\n\n~\
        ends after a comment\nP7\nWIDTH 2\nHEIGHT 1\nDEPTH 4\nMAXVAL 255\nTUPLTYPE RGB_ALPHA\n# c\n~\
        ends in WIDTH\nP7\nWIDTH 2~\
        ends in HEIGHT\nP7\nWIDTH 2\nHEIGHT~\
        ends in DEPTH\nP7\nWIDTH 2\nHEIGHT 1\nDEPTH ~\
        ends in MAXVAL\nP7\nWIDTH 2\nHEIGHT 1\nDEPTH 4\nMAXVAL 25~\
        ends in TUPLTYPE\nP7\nWIDTH 2\nHEIGHT 1\nDEPTH 4\nMAXVAL 255\nTUPLTYPE RGB_ALPHA~\
        ends in a comment\nP7\nWIDTH 2\nHEIGHT 1\nDEPTH 4\nMAXVAL 255\nTUPLTYPE RGB_ALPHA\n# c~\
        ends in ENDHDR\nP7\nWIDTH 2\nHEIGHT 1\nDEPTH 4\nMAXVAL 255\nTUPLTYPE RGB_ALPHA\nENDHD~\
        ENDHDR without byte 10\nP7\nWIDTH 2\nHEIGHT 1\nDEPTH 4\nMAXVAL 255\nTUPLTYPE RGB_ALPHA\nENDHDR~\
        ENDHDR, byte 13, no byte 10\nP7\nWIDTH 2\nHEIGHT 1\nDEPTH 4\nMAXVAL 255\nTUPLTYPE RGB_ALPHA\nENDHDR\r~",
    )
}

// The end left out, or in the wrong place.
fn no_end(rt: &impl Print) -> io::Result<()> {
    each(
        rt,
        b"ENDHDR left out\nP7\nWIDTH 2\nHEIGHT 1\nDEPTH 4\nMAXVAL 255\nTUPLTYPE RGB_ALPHA\nabcdefgh~\
        ENDHDR left out, pixels of lines\nP7\nWIDTH 2\nHEIGHT 1\nDEPTH 4\nMAXVAL 255\nTUPLTYPE RGB_ALPHA\nabc\nefg\n~\
        ENDHDR first\nP7\nENDHDR\nWIDTH 2\nHEIGHT 1\nDEPTH 4\nMAXVAL 255\nTUPLTYPE RGB_ALPHA\nabcdefgh~\
        ENDHDR alone\nP7\nENDHDR\n~\
        MAXVAL after ENDHDR\nP7\nWIDTH 2\nHEIGHT 1\nDEPTH 4\nTUPLTYPE RGB_ALPHA\nENDHDR\nMAXVAL 255\n~\
        a line outside the form, not ended\nP7\nWIDTH 2\nLENGTH 3\n~\
        WIDTH twice, not ended\nP7\nWIDTH 2\nWIDTH 2\n~",
    )
}
