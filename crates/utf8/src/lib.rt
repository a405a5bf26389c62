// UTF-8 by the grammar of RFC 3629, section 4, over a slice, each byte read once; and whether a slice has a byte.

#![tactic(auto)]

ghost use Rattle.std.specs.Prelude.{◌≡◌, length, Some};
ghost use Rattle.rules.specs.Bytes.{has};
ghost use Rattle.rules.specs.Utf8.{following};
ghost use Rattle.utf8.specs.Owing.{wanted, wanted_by, after};
ghost use Rattle.utf8.specs.Answer.{utf8_answer};
ghost use Rattle.utf8.specs.AllBits.{all_bits, four_bits};

// An enum, which callers open by `let .. else`: document 01's form.
#[derive(Debug, Clone, Copy, PartialEq, Eq)]
pub enum Utf8 {
    Sound,
    Broken,
}

// What a character that has begun still wants: how many bytes more, and the range of the next of them, which says nothing where `more` is 0.
#[derive(Clone, Copy)]
struct Owed {
    more: usize,
    lo: u8,
    hi: u8,
}

fn wants(more: usize, lo: u8, hi: u8) -> Option<Owed>
    ensures { result ≡ Some (record { more = more; lo = lo; hi = hi }) }
{
    Some(Owed { more, lo, hi })
}

// What a first byte wants after it, or nothing where no character begins so: the table of RFC 3629.
fn begin(b: u8) -> Option<Owed>
    ensures { wanted result ≡ following b }
{
    match b {
        0x00..=0x7f => wants(0, 0x80, 0xbf),
        0xc2..=0xdf => wants(1, 0x80, 0xbf),
        0xe0 => wants(2, 0xa0, 0xbf),
        0xe1..=0xec => wants(2, 0x80, 0xbf),
        0xed => wants(2, 0x80, 0x9f),
        0xee..=0xef => wants(2, 0x80, 0xbf),
        0xf0 => wants(3, 0x90, 0xbf),
        0xf1..=0xf3 => wants(3, 0x80, 0xbf),
        0xf4 => wants(3, 0x80, 0x8f),
        _ => None,
    }
}

// What is wanted after one byte more, or nothing where no character goes on with it.
fn step(o: Owed, b: u8) -> Option<Owed>
    ensures { wanted result ≡ after (wanted_by o) b }
{
    if o.more == 0 {
        return begin(b);
    }
    if b < o.lo || o.hi < b {
        return None;
    }
    wants(o.more - 1, 0x80, 0xbf)
}

// The bits that some byte has: if they are below 128, every byte is ASCII. No exit before the end, so that the machine takes many bytes at once.
fn each_bits(s: &[u8]) -> u8
    ensures { result ≡ all_bits s.now }
{
    s.iter().fold(0, |all, &b| all | b)
}

// The same of four parts as long as each other. Each has a number of its own, so that no step waits for the one before it.
fn four_bits(a: &[u8], b: &[u8], c: &[u8], d: &[u8]) -> u8
    requires { (length b.now ≡ length a.now) × (length c.now ≡ length a.now) × (length d.now ≡ length a.now) }
    ensures { result ≡ four_bits a.now b.now c.now d.now }
{
    let mut first = 0;
    let mut second = 0;
    let mut third = 0;
    let mut fourth = 0;
    for i in 0..a.len() {
        first |= a[i];
        second |= b[i];
        third |= c[i];
        fourth |= d[i];
    }
    first | second | third | fourth
}

// From so many bytes on, four parts are faster than one.
const LONG: usize = 256;

// The bits that some byte has.
pub fn all_bits(s: &[u8]) -> u8
    ensures { result ≡ all_bits s.now }
{
    if s.len() < LONG {
        return each_bits(s);
    }
    let n = s.len() / 4;
    let half = 2 * n;
    let most = 3 * n;
    let end = 4 * n;
    let parts = four_bits(&s[..n], &s[n..half], &s[half..most], &s[most..end]);
    parts | each_bits(&s[end..])
}

// Whether the bytes are UTF-8, one after the other.
fn check_each(s: &[u8]) -> Utf8
    ensures { result ≡ utf8_answer s.now }
{
    let mut owed = Owed {
        more: 0,
        lo: 0x80,
        hi: 0xbf,
    };
    for &b in s {
        let Some(next) = step(owed, b) else {
            return Utf8::Broken;
        };
        owed = next;
    }
    if owed.more == 0 {
        return Utf8::Sound;
    }
    Utf8::Broken
}

// Whether the bytes are UTF-8. Most texts are ASCII, which is seen faster.
pub fn check_utf8(s: &[u8]) -> Utf8
    ensures { result ≡ utf8_answer s.now }
{
    if all_bits(s) < 128 {
        return Utf8::Sound;
    }
    check_each(s)
}

// Whether `b` is among the bytes. Public, so that it stays, over std's.
pub fn has_byte(s: &[u8], b: u8) -> bool
    ensures { result ≡ has b s.now }
{
    s.contains(&b)
}
