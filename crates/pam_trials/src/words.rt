// 11 by a line's words: keywords, blanks, a word too few or too many.
use crate::each;
use std::io;

pub(crate) fn trials(rt: &impl Print) -> io::Result<()> {
    keywords(rt)?;
    glued(rt)?;
    missing_word(rt)?;
    surplus_word(rt)
}

// Keywords misspelt, cut off, in lower case.
fn keywords(rt: &impl Print) -> io::Result<()> {
    each(
        rt,
        b"WIDHT\nP7\nWIDHT 2\nHEIGHT 1\nDEPTH 4\nMAXVAL 255\nTUPLTYPE RGB_ALPHA\nENDHDR\nabcdefgh~\
        HIEGHT\nP7\nWIDTH 2\nHIEGHT 1\nDEPTH 4\nMAXVAL 255\nTUPLTYPE RGB_ALPHA\nENDHDR\nabcdefgh~\
        DEPT\nP7\nWIDTH 2\nHEIGHT 1\nDEPT 4\nMAXVAL 255\nTUPLTYPE RGB_ALPHA\nENDHDR\nabcdefgh~\
        MAXVALUE\nP7\nWIDTH 2\nHEIGHT 1\nDEPTH 4\nMAXVALUE 255\nTUPLTYPE RGB_ALPHA\nENDHDR\nabcdefgh~\
        TUPLETYPE\nP7\nWIDTH 2\nHEIGHT 1\nDEPTH 4\nMAXVAL 255\nTUPLETYPE RGB_ALPHA\nENDHDR\nabcdefgh~\
        ENDHEADER\nP7\nWIDTH 2\nHEIGHT 1\nDEPTH 4\nMAXVAL 255\nTUPLTYPE RGB_ALPHA\nENDHEADER\nabcdefgh~\
        ENDHDRS\nP7\nWIDTH 2\nHEIGHT 1\nDEPTH 4\nMAXVAL 255\nTUPLTYPE RGB_ALPHA\nENDHDRS\nabcdefgh~\
        WIDTI\nP7\nWIDTI 2\nHEIGHT 1\nDEPTH 4\nMAXVAL 255\nTUPLTYPE RGB_ALPHA\nENDHDR\nabcdefgh~\
        XIDTH\nP7\nXIDTH 2\nHEIGHT 1\nDEPTH 4\nMAXVAL 255\nTUPLTYPE RGB_ALPHA\nENDHDR\nabcdefgh~\
        width\nP7\nwidth 2\nHEIGHT 1\nDEPTH 4\nMAXVAL 255\nTUPLTYPE RGB_ALPHA\nENDHDR\nabcdefgh~\
        height\nP7\nWIDTH 2\nheight 1\nDEPTH 4\nMAXVAL 255\nTUPLTYPE RGB_ALPHA\nENDHDR\nabcdefgh~\
        depth\nP7\nWIDTH 2\nHEIGHT 1\ndepth 4\nMAXVAL 255\nTUPLTYPE RGB_ALPHA\nENDHDR\nabcdefgh~\
        maxval\nP7\nWIDTH 2\nHEIGHT 1\nDEPTH 4\nmaxval 255\nTUPLTYPE RGB_ALPHA\nENDHDR\nabcdefgh~\
        tupltype\nP7\nWIDTH 2\nHEIGHT 1\nDEPTH 4\nMAXVAL 255\ntupltype RGB_ALPHA\nENDHDR\nabcdefgh~\
        endhdr\nP7\nWIDTH 2\nHEIGHT 1\nDEPTH 4\nMAXVAL 255\nTUPLTYPE RGB_ALPHA\nendhdr\nabcdefgh~\
        Width\nP7\nWidth 2\nHEIGHT 1\nDEPTH 4\nMAXVAL 255\nTUPLTYPE RGB_ALPHA\nENDHDR\nabcdefgh~",
    )
}

// No blank between the words; the bytes beside the blanks part none.
fn glued(rt: &impl Print) -> io::Result<()> {
    each(
        rt,
        b"WIDTH2\nP7\nWIDTH2\nHEIGHT 1\nDEPTH 4\nMAXVAL 255\nTUPLTYPE RGB_ALPHA\nENDHDR\nabcdefgh~\
        HEIGHT1\nP7\nWIDTH 2\nHEIGHT1\nDEPTH 4\nMAXVAL 255\nTUPLTYPE RGB_ALPHA\nENDHDR\nabcdefgh~\
        DEPTH4\nP7\nWIDTH 2\nHEIGHT 1\nDEPTH4\nMAXVAL 255\nTUPLTYPE RGB_ALPHA\nENDHDR\nabcdefgh~\
        MAXVAL255\nP7\nWIDTH 2\nHEIGHT 1\nDEPTH 4\nMAXVAL255\nTUPLTYPE RGB_ALPHA\nENDHDR\nabcdefgh~\
        TUPLTYPERGB_ALPHA\nP7\nWIDTH 2\nHEIGHT 1\nDEPTH 4\nMAXVAL 255\nTUPLTYPERGB_ALPHA\nENDHDR\nabcdefgh~\
        WIDTH=2\nP7\nWIDTH=2\nHEIGHT 1\nDEPTH 4\nMAXVAL 255\nTUPLTYPE RGB_ALPHA\nENDHDR\nabcdefgh~\
        HEIGHT:1\nP7\nWIDTH 2\nHEIGHT:1\nDEPTH 4\nMAXVAL 255\nTUPLTYPE RGB_ALPHA\nENDHDR\nabcdefgh~\
        byte 8 for a blank\nP7\nWIDTH\x082\nHEIGHT 1\nDEPTH 4\nMAXVAL 255\nTUPLTYPE RGB_ALPHA\nENDHDR\nabcdefgh~\
        byte 14 for a blank\nP7\nWIDTH 2\nHEIGHT\x0e1\nDEPTH 4\nMAXVAL 255\nTUPLTYPE RGB_ALPHA\nENDHDR\nabcdefgh~\
        byte 31 for a blank\nP7\nWIDTH 2\nHEIGHT 1\nDEPTH\x1f4\nMAXVAL 255\nTUPLTYPE RGB_ALPHA\nENDHDR\nabcdefgh~\
        byte 33 for a blank\nP7\nWIDTH 2\nHEIGHT 1\nDEPTH 4\nMAXVAL\x21255\nTUPLTYPE RGB_ALPHA\nENDHDR\nabcdefgh~\
        byte 0 for a blank\nP7\nWIDTH\x002\nHEIGHT 1\nDEPTH 4\nMAXVAL 255\nTUPLTYPE RGB_ALPHA\nENDHDR\nabcdefgh~\
        byte 160 for a blank\nP7\nWIDTH\xa02\nHEIGHT 1\nDEPTH 4\nMAXVAL 255\nTUPLTYPE RGB_ALPHA\nENDHDR\nabcdefgh~\
        byte 133 for a line end\nP7\nWIDTH 2\x85HEIGHT 1\nDEPTH 4\nMAXVAL 255\nTUPLTYPE RGB_ALPHA\nENDHDR\nabcdefgh~\
        a line of byte 0\nP7\nWIDTH 2\nHEIGHT 1\n\x00\nDEPTH 4\nMAXVAL 255\nTUPLTYPE RGB_ALPHA\nENDHDR\nabcdefgh~",
    )
}

// A word left out.
fn missing_word(rt: &impl Print) -> io::Result<()> {
    each(
        rt,
        b"WIDTH and no number\nP7\nWIDTH\nHEIGHT 1\nDEPTH 4\nMAXVAL 255\nTUPLTYPE RGB_ALPHA\nENDHDR\nabcdefgh~\
        HEIGHT and a blank\nP7\nWIDTH 2\nHEIGHT \nDEPTH 4\nMAXVAL 255\nTUPLTYPE RGB_ALPHA\nENDHDR\nabcdefgh~\
        DEPTH and byte 9\nP7\nWIDTH 2\nHEIGHT 1\nDEPTH\t\nMAXVAL 255\nTUPLTYPE RGB_ALPHA\nENDHDR\nabcdefgh~\
        MAXVAL and byte 13\nP7\nWIDTH 2\nHEIGHT 1\nDEPTH 4\nMAXVAL\r\nTUPLTYPE RGB_ALPHA\nENDHDR\nabcdefgh~\
        TUPLTYPE and no type\nP7\nWIDTH 2\nHEIGHT 1\nDEPTH 4\nMAXVAL 255\nTUPLTYPE\nENDHDR\nabcdefgh~\
        TUPLTYPE and blanks\nP7\nWIDTH 2\nHEIGHT 1\nDEPTH 4\nMAXVAL 255\nTUPLTYPE  \nENDHDR\nabcdefgh~\
        a number and no keyword\nP7\n2\nHEIGHT 1\nDEPTH 4\nMAXVAL 255\nTUPLTYPE RGB_ALPHA\nENDHDR\nabcdefgh~\
        the number in the next line\nP7\nWIDTH\n2\nHEIGHT 1\nDEPTH 4\nMAXVAL 255\nTUPLTYPE RGB_ALPHA\nENDHDR\nabcdefgh~\
        a type and no keyword\nP7\nWIDTH 2\nHEIGHT 1\nDEPTH 4\nMAXVAL 255\nRGB_ALPHA\nENDHDR\nabcdefgh~",
    )
}

// A word too many.
fn surplus_word(rt: &impl Print) -> io::Result<()> {
    each(
        rt,
        b"WIDTH 2 2\nP7\nWIDTH 2 2\nHEIGHT 1\nDEPTH 4\nMAXVAL 255\nTUPLTYPE RGB_ALPHA\nENDHDR\nabcdefgh~\
        HEIGHT 1 X\nP7\nWIDTH 2\nHEIGHT 1 X\nDEPTH 4\nMAXVAL 255\nTUPLTYPE RGB_ALPHA\nENDHDR\nabcdefgh~\
        DEPTH 4 4\nP7\nWIDTH 2\nHEIGHT 1\nDEPTH 4 4\nMAXVAL 255\nTUPLTYPE RGB_ALPHA\nENDHDR\nabcdefgh~\
        MAXVAL 255 255\nP7\nWIDTH 2\nHEIGHT 1\nDEPTH 4\nMAXVAL 255 255\nTUPLTYPE RGB_ALPHA\nENDHDR\nabcdefgh~\
        ENDHDR X\nP7\nWIDTH 2\nHEIGHT 1\nDEPTH 4\nMAXVAL 255\nTUPLTYPE RGB_ALPHA\nENDHDR X\nabcdefgh~\
        ENDHDR ENDHDR\nP7\nWIDTH 2\nHEIGHT 1\nDEPTH 4\nMAXVAL 255\nTUPLTYPE RGB_ALPHA\nENDHDR ENDHDR\nabcdefgh~\
        ENDHDR, byte 9, 0\nP7\nWIDTH 2\nHEIGHT 1\nDEPTH 4\nMAXVAL 255\nTUPLTYPE RGB_ALPHA\nENDHDR\t0\nabcdefgh~\
        MAXVAL 255, two blanks, a comma\nP7\nWIDTH 2\nHEIGHT 1\nDEPTH 4\nMAXVAL 255  ,\nTUPLTYPE RGB_ALPHA\nENDHDR\nabcdefgh~\
        WIDTH and HEIGHT in one line\nP7\nWIDTH 2 HEIGHT 1\nDEPTH 4\nMAXVAL 255\nTUPLTYPE RGB_ALPHA\nENDHDR\nabcdefgh~\
        2 WIDTH\nP7\n2 WIDTH\nHEIGHT 1\nDEPTH 4\nMAXVAL 255\nTUPLTYPE RGB_ALPHA\nENDHDR\nabcdefgh~\
        WIDTH WIDTH 2\nP7\nWIDTH WIDTH 2\nHEIGHT 1\nDEPTH 4\nMAXVAL 255\nTUPLTYPE RGB_ALPHA\nENDHDR\nabcdefgh~",
    )
}
