// The marks: a bit for each place of a file, in fixed memory, since there is no heap. A mark says that a 3 stands there in place of the file's own byte.
ghost use Rattle.std.specs.Prelude.{◌≡◌, List, ℕ, ◌+◌, ◌<◌, ◌≤◌, length, get_or};
ghost use Rattle.rules.specs.Marks.{marked};
ghost use Rattle.laying.specs.Painted.{MarkedAt, Shown, ShownAll, WordAt};

// How many words they are.
pub const WORDS: usize = 938;

pub type Marks = [u64; WORDS];

// A mark at `at`.
pub fn mark(bits: &mut Marks, at: usize)
    requires { at < 60_000 }
    ensures { MarkedAt bits.old at bits.new }
{
    bits[at / 64] |= 1u64 << (at % 64);
}

// The byte at `at`, as its mark says: a 3 where it is set. Answers how many bytes have changed, of which n are before it.
fn show(s: &mut [u8], at: usize, is_marked: bool, n: usize) -> usize
    requires { (n ≤ at) × ((at < 60_064) × (at < length s.old)) }
    ensures { (result ≤ at + 1) × ((ws s₀ : List ℕ) → is_marked ≡ marked ws at → Shown ws s₀ at s.old n → Shown ws s₀ (at + 1) s.new result) }
{
    if !is_marked || s[at] == 3 {
        return n;
    }
    s[at] = 3;
    n + 1
}

// The bytes from `from` on, by the marks in one word.
fn show_word(s: &mut [u8], from: usize, word: u64, count: usize) -> usize
    requires { (count ≤ from) × (from < 60_000) }
    ensures { (result ≤ from + 64) × ((ws s₀ : List ℕ) → WordAt ws from word → Shown ws s₀ from s.old count → Shown ws s₀ (from + 64) s.new result) }
{
    let mut n = count;
    let mut rest = word;
    let mut at = from;
    // no plainer by a `for`: the place goes on by one or by four, and stops with the word
    while rest != 0 {
        if s.len() <= at {
            return n;
        }
        if rest % 16 == 0 {
            rest /= 16;
            at += 4;
            continue;
        }
        n = show(s, at, rest % 2 == 1, n);
        rest /= 2;
        at += 1;
    }
    n
}

// The bits of some words together, without an exit, which the compiler makes several words wide.
fn all_marks(words: &[u64]) -> u64
    ensures { (i : ℕ) → i < length words.now → get_or words.now i 0 ≤ result }
{
    let mut all = 0;
    for &word in words {
        all |= word;
    }
    all
}

// Each byte that has a mark becomes a 3. Answers how many have changed.
pub fn show_all(s: &mut [u8], bits: &Marks) -> usize
    requires { length s.old ≤ 60_000 }
    ensures { ShownAll bits.now s.old s.new result }
{
    let words = &bits[..s.len().div_ceil(64)];
    if all_marks(words) == 0 {
        return 0;
    }
    let mut n = 0;
    for (i, &word) in words.iter().enumerate() {
        n = show_word(s, i * 64, word, n);
    }
    n
}
