// Fields put behind what is written.
// A tag or a code stays a number: the contracts here hold of every one (docs/CONTRACTS.md).
ghost use Rattle.std.specs.Prelude.{◌≡◌, true, ◌+◌, ◌≤◌, length};
ghost use Rattle.rules.specs.Encode.{field};
ghost use Rattle.utf8.specs.Answer.{utf8_answer};
ghost use Rattle.utf8.specs.declared.Utf8.TheVariants.{Sound};
ghost use Rattle.moves.specs.Plans.{sane};
ghost use Rattle.quick.specs.Quick.{PutsPiece};

use rules::MOST_BYTES;
use scribe::put::put_field;
use scribe::stepping::Spot;
use utf8::all_bits;

// So many bytes and a text of n go into the file and into the room.
pub fn has_room(room: usize, at: usize, more: usize, n: usize) -> bool
    requires { (at ≤ 60_000) × (more ≤ 100) }
    ensures { result ≡ true → (at + (more + n) ≤ 60_000) × (at + (more + n) ≤ room) }
{
    n <= MOST_BYTES && at + (more + n) <= room.min(MOST_BYTES)
}

// Every byte is ASCII, as of most texts.
pub fn plain(v: &[u8]) -> bool
    ensures { result ≡ true → Sound ≡ utf8_answer v.now }
{
    all_bits(v) < 128
}

// A field that is a node.
pub fn leaf(buf: &mut [u8], at: usize, top: usize, allowed: bool, tag: u8, v: &[u8]) -> Option<Spot>
    requires { sane (length buf.old) at top ≡ true }
    ensures { PutsPiece result buf.old buf.new at top allowed (field tag v.now) }
{
    if !allowed || !has_room(buf.len(), at, 3, v.len()) {
        return None;
    }
    let next = put_field(buf, at, tag, v);
    Some(Spot { at: next, top })
}
