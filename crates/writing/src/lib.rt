// A lent page that is written from its start on, as far as it fits: a byte past its end is dropped, and the position moves on all the same, so that the
// last position says how many bytes the whole text needs. Positions saturate at usize::MAX, which no page reaches.

#![tactic(auto)]

ghost use Rattle.std.specs.Prelude.{◌≡◌, ◌≤◌, [], ◌∷◌, List, ℕ, length, replicate};
ghost use Rattle.std.specs.Fn.{FnOnceTakesAtMut, FnOnceReturnsAtMut};
ghost use Rattle.writing.specs.Written.{Written, Put, Begins};

#[derive(Drop)]
pub struct Page<'p> {
    pub bytes: &'p mut [u8],
    // where the next byte goes
    pub at: usize,
}

// A slice over another of its length. Not by `copy_from_slice`, which looks first whether the two overlap: tried, and a coloured tag took 24.3 ns
// in place of 22.5, where HTML of code-like files only just meets its goal (docs/SPEED.md).
fn copy(to: &mut [u8], s: &[u8])
    requires { length to.old ≡ length s.now }
    ensures { to.new ≡ s.now }
{
    for (i, b) in to.iter_mut().enumerate() {
        *b = s[i];
    }
}

impl<'p> Page<'p> {
    pub fn put(&mut self, b: u8)
        ensures { Put self.old (b ∷ []) self.new }
    {
        let at = self.at;
        if at < self.bytes.len() {
            self.bytes[at] = b;
        }
        self.at = at.saturating_add(1);
    }

    // A text of n bytes: `write` puts it over the part of the page that has room for it, or as much of it as that holds. Where all fits, as it
    // mostly does, the part is known to have n bytes, and a short text takes no loop.
    fn put_by<F: FnOnce(&mut [u8])>(&mut self, n: usize, write: F)
        requires { (to : List ℕ) → length to ≤ n → FnOnceTakesAtMut F.FnOnce write to }
        ensures put { (text : List ℕ) → length text ≡ n → Begins n text (λ to to'. FnOnceReturnsAtMut F.FnOnce write to tt to') → Put self.old text self.new }
        ensures same_page { self.new.bytes.ghost_name ≡ self.old.bytes.ghost_name }
    {
        let at = self.at;
        self.at = at.saturating_add(n);
        if at < self.bytes.len() {
            let room = self.bytes.len() - at;
            if n <= room {
                write(&mut self.bytes[at..at + n]);
            } else {
                write(&mut self.bytes[at..]);
            }
        }
    }

    // The bytes of a slice.
    pub fn put_bytes(&mut self, s: &[u8])
        ensures { Put self.old s.now self.new }
    {
        self.put_by(s.len(), |to| copy(to, &s[..to.len()]))
    }

    // `n` spaces.
    pub fn put_spaces(&mut self, n: usize)
        ensures { Put self.old (replicate n 32) self.new }
    {
        self.put_by(n, |to| to.fill(b' '))
    }
}

// The bytes of a slice on a page from a place on; the place behind them.
pub fn put_bytes(bytes: &mut [u8], at: usize, s: &[u8]) -> usize
    ensures { Written bytes.old at s.now bytes.new result }
{
    let mut page = Page { bytes, at };
    page.put_by(s.len(), |to| copy(to, &s[..to.len()]));
    page.at
}
