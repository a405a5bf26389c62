// What is open: the code in an unfinished header, the link behind it, and closing a field.
ghost use Rattle.std.specs.Prelude.{◌≡◌, ◌+◌, ◌-◌, ◌≤◌, ◌<◌, ◌/◌, ◌%◌, length, set, get_or};
ghost use Rattle.moves.specs.Opened.{code_at, true_tag, link_at, closed_in};

// The code that stands for the root, above every byte.
pub const ROOT: usize = 256;

// The code of what is open at `top`.
#[tactic(auto, using(crate::proofs::OpenedLaws::code_inside), unfolding(moves::specs::Opened::code_at))]
pub fn code_at(buf: &[u8], top: usize) -> usize
    requires { top ≤ length buf.now }
    ensures { (result ≡ code_at buf.now top) × (result ≤ 256) }
{
    if top == 0 {
        return ROOT;
    }
    usize::from(buf[top - 1])
}

// The tag that a field gets when it is closed, by what is open. A kind stays a number, as in `plan`.
#[tactic(auto, unfolding(moves::specs::Opened::true_tag))]
fn true_tag(kind: usize) -> u8
    ensures { result ≡ true_tag kind }
{
    match kind {
        0..=2 => 8,
        3 => 3,
        4..=6 => 4,
        _ => 2,
    }
}

// Where the open field around the one at `top` is.
#[tactic(auto, unfolding(moves::specs::Opened::link_at))]
pub fn link_at(buf: &[u8], top: usize) -> usize
    requires { top + 1 < length buf.now }
    ensures { (result ≡ link_at buf.now top) × (result < 65_536) }
{
    usize::from(u16::from_be_bytes([buf[top], buf[top + 1]]))
}

// The field at `top` is closed: its header gets its tag and its length. Answers where the open field around it is.
#[tactic(auto, unfolding(moves::specs::Opened::closed_in))]
pub fn close(buf: &mut [u8], at: usize, top: usize) -> usize
    requires { (0 < top) × (top + 2 ≤ at) × (at ≤ length buf.old) × (at < 65_536) }
    ensures { (result ≡ link_at buf.old top) × (result < 65_536) × (buf.new ≡ closed_in buf.old at top) }
{
    let around = link_at(buf, top);
    let n = at - (top + 2);
    let tag = true_tag(usize::from(buf[top - 1]) / 32);
    buf[top - 1] = tag;
    let [high, low] = (n as u16).to_be_bytes();
    buf[top] = high;
    buf[top + 1] = low;
    around
}
