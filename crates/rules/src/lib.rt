// The rules of document 01. This crate is its specs/ (the rules) and its proofs/ (theorems about them); its code is the limits, which
// specs/Limits has by the same names, and the refusals that every public entry answers.

#![tactic(auto)]

// The most bytes of a file.
pub const MOST_BYTES: usize = 60000;

// The most blocks around a block.
pub const MOST_BLOCKS: usize = 32;

// The widest page, in columns.
pub const MOST_COLUMNS: usize = 6553;

// The most bytes of a plain page for each byte of its file.
pub const PLAIN_PER_BYTE: usize = 67;

// The most bytes of an HTML page for each byte of its file, and those around its items: the document's, of which the body's are a part.
pub const HTML_PER_BYTE: usize = 236;

pub const HTML_FRAME: usize = 1072;

// The cap of widths, in tenths of a column.
pub const MOST_TENTHS: u16 = 65535;

// What a block is indented by, in tenths of a column.
pub const INDENTATION: u16 = 20;

// The tags of a style's fields.
pub const FIRST_STYLE: u8 = 32;

pub const LAST_STYLE: u8 = 39;

// Why a file, a width or a page buffer is refused: a case for each of document 01's numbers, in their order, and strict mode's 14, with the place where it is not 0.
// A public entry answers `Result<usize, Refusal>`: a count (the tags that layout changed, the page's length, 0 for the file check), or the refusal.
#[derive(Debug, Clone, Copy, PartialEq, Eq)]
pub enum Refusal {
    TooLong,
    TooWide,
    Cut(usize),
    WrongTag(usize),
    WrongLength(usize),
    TooDeep(usize),
    NotUtf8(usize),
    BadStyle(usize),
    QuoteInAnchor(usize),
    PageTooShort(usize),
    NulInText(usize),
}
