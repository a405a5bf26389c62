// A batch of recorded requests: where the file of the request at a place stands, and the page that is lent (tests/recorded/README.md has
// the format).

#![tactic(auto)]

ghost use Rattle.std.specs.Prelude.{◌≡◌, ◌+◌, ◌≤◌, length, replicate};
ghost use Rattle.requests.specs.Requests.{width_at, room_at, long_at, request_at, operation};

// What a request asks for. A number that is none of these is the last.
#[derive(Debug, Clone, Copy, PartialEq, Eq)]
pub enum Operation {
    Check,
    Layout,
    Plain,
    Body,
    Document,
    StrictCheck,
    StrictBody,
    StrictDocument,
}

impl From<u8> for Operation {
    ghost from_gives = { λ n r. r ≡ operation n };

    #[tactic(auto, unfolding(crate::specs::Requests::operation))]
    fn from(number: u8) -> Operation {
        match number {
            0 => Operation::Check,
            1 => Operation::Layout,
            2 => Operation::Plain,
            3 => Operation::Body,
            4 => Operation::Document,
            5 => Operation::StrictCheck,
            6 => Operation::StrictBody,
            _ => Operation::StrictDocument,
        }
    }
}

// The bytes before a request's file: the operation, the width, the room, the file's length.
pub const HEADER: usize = 11;

// The number of its operation, its width and the room of its page; its file stands from `from` to `to`. `op` stays a number, as `request_at` of specs/Requests, which the
// contracts cite, has it.
#[derive(Debug, Clone, Copy, PartialEq, Eq)]
pub struct Request {
    pub op: u8,
    pub width: usize,
    pub room: usize,
    pub from: usize,
    pub to: usize,
}

// The three low bytes of the file's length: a batch is shorter than 2^24 bytes.
fn file_length(s: &[u8], at: usize) -> usize
    requires { at + 11 ≤ length s.now }
    ensures { result ≡ long_at s.now at }
{
    u32::from_be_bytes([0, s[at + 8], s[at + 9], s[at + 10]]) as usize
}

fn width_of(s: &[u8], at: usize) -> usize
    requires { at + 11 ≤ length s.now }
    ensures { result ≡ width_at s.now at }
{
    usize::from(u16::from_be_bytes([s[at + 1], s[at + 2]]))
}

// The two low bytes of the room: a recorded page is shorter than 2^16 bytes.
fn room_of(s: &[u8], at: usize) -> usize
    requires { at + 11 ≤ length s.now }
    ensures { result ≡ room_at s.now at }
{
    usize::from(u16::from_be_bytes([s[at + 5], s[at + 6]]))
}

// None where no whole request is left.
#[tactic(auto, using(crate::proofs::Laws::no_header, crate::proofs::Laws::no_file, crate::proofs::Laws::a_file))]
pub fn request_at(s: &[u8], at: usize) -> Option<Request>
    ensures { result ≡ request_at s.now at }
{
    if s.len() < HEADER || s.len() - HEADER < at {
        return None;
    }
    let from = at + HEADER;
    let n = file_length(s, at);
    if s.len() - from < n {
        return None;
    }
    Some(Request {
        op: s[at],
        width: width_of(s, at),
        room: room_of(s, at),
        from,
        to: from + n,
    })
}

// The pattern of a lent page, of which a refusal must change nothing and a page only what it covers.
const PATTERN: u8 = 0xa5;

pub fn fill(page: &mut [u8])
    ensures { page.new ≡ replicate (length page.old) 165 }
{
    page.fill(PATTERN);
}
