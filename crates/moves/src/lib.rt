// A writer's step on a lent buffer: its types. What a step leaves, for every state, is specs/; that this is what was asked for, proofs/. The code is `scribe`.

#![tactic(auto)]

ghost use Rattle.std.specs.Prelude.{◌≡◌, ℕ};
ghost use Rattle.rules.specs.Result.{refused};
ghost use Rattle.moves.specs.Stepped.{refusal};

use answers::Numbered;

// The steps. Those that put a text, a name or a style get it beside.
#[derive(Debug, Clone, Copy, PartialEq, Eq)]
pub enum Op {
    Text,
    Space,
    Force,
    Conditional,
    OpenDefinition,
    OpenUse,
    CloseAnchor,
    OpenIndented,
    OpenFlexible,
    CloseBlock,
    OpenFragment,
    CloseFragment,
    // behind a text that is given with the step
    BeginSpaceJoin,
    // behind the node that was just written
    BeginSpaceJoinBehind,
    BeginCommaJoin,
    BeginCommaJoinBehind,
    NextEntry,
    EndSpaceJoin,
    EndCommaJoin,
    Finish,
}

// What a step can put.
#[derive(Debug, Clone, Copy, PartialEq, Eq)]
pub enum Piece {
    Nothing,
    // a text's node, of the style and the text given
    Run,
    Space,
    Force,
    Conditional,
    Definition,
    Use,
    // behind an entry of a comma join that is not the last
    CommaSpace,
    // behind the last
    LastComma,
}

// In this order: a piece, so many fields closed, a field opened by its code or none, another piece. `too_deep` where that field is a block inside 32 others.
// `allowed` is a field and no `Option` around: it is the first of a step's checks, with whether the fields can be closed (`planned` of specs/Stepped), and the others follow.
#[derive(Debug, Clone, Copy, PartialEq, Eq)]
pub struct Plan {
    pub allowed: bool,
    pub before: Piece,
    pub closes: usize,
    pub opens: Option<u8>,
    pub too_deep: bool,
    pub behind: Piece,
}

// Where `styled` is false there is no style. A value counts where its flag is true. An opacity is its float's bits, high byte first; thickness and size are
// signed bytes, given as the byte that stands in the file. Document 01's form, a flag beside its value, and how C gives it in 18 bytes.
#[derive(Debug, Clone, Copy, PartialEq, Eq)]
pub struct Style {
    pub styled: bool,
    pub has_colour: bool,
    pub colour: [u8; 3],
    pub has_opacity: bool,
    pub opacity: [u8; 4],
    pub has_thickness: bool,
    pub thickness: u8,
    pub has_size: bool,
    pub size: u8,
    pub subscript: bool,
    pub superscript: bool,
    pub dim: bool,
    pub underline: bool,
}

// Why a step is refused: a case for each of its numbers, 1 and 6 to 11 (docs/FORMAT, "Refusals of a step"), with the place: how far the file is written, or the bytes that are needed.
#[derive(Debug, Clone, Copy, PartialEq, Eq)]
pub enum Refusal {
    TooLong(usize),
    TooDeep(usize),
    NotUtf8(usize),
    BadStyle(usize),
    QuoteInAnchor(usize),
    BufferTooShort(usize),
    NotAllowed(usize),
}

impl From<Refusal> for Numbered {
    ghost from_gives = { λ r n. refusal {A = ℕ} r ≡ refused n.number n.place };

    #[tactic(auto, unfolding(crate::specs::Stepped::refusal))]
    fn from(r: Refusal) -> Numbered {
        let (number, place) = match r {
            Refusal::TooLong(p) => (1, p),
            Refusal::TooDeep(p) => (6, p),
            Refusal::NotUtf8(p) => (7, p),
            Refusal::BadStyle(p) => (8, p),
            Refusal::QuoteInAnchor(p) => (9, p),
            Refusal::BufferTooShort(needed) => (10, needed),
            Refusal::NotAllowed(p) => (11, p),
        };
        Numbered { number, place }
    }
}

// The numbers of a writer after a step, and the step's answer: the write position after it (of the last step, the file's length), or the refusal.
#[derive(Debug, Clone, Copy, PartialEq, Eq)]
pub struct Moved {
    pub at: usize,
    pub top: usize,
    pub answer: Result<usize, Refusal>,
}
