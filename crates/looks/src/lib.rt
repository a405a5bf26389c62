// Looks at the bytes of a text together: whether there is one among them that a test finds. A window of N bytes is looked at without an exit, which the compiler makes few loads
// and comparisons. The quick looks (`calm`, `lacks`, `calm_ahead`) may miss: `false` says nothing there, and the caller then looks byte by byte.

#![tactic(auto)]

ghost use Rattle.std.specs.Prelude.{◌+◌, ◌<◌, ◌≤◌, true, false, length, slice_index};
ghost use Rattle.looks.specs.Calm.{Clear, Calm, Lacks, Says};

// Whether the test finds none of the N bytes from `from` on. All are looked at, so that the machine can do it at once.
pub fn is_clear<const N: usize, F: Fn(u8) -> bool>(s: &[u8], from: usize, finds: F) -> bool
    requires callable { F.IsAlwaysCallable finds }
    requires inside { from + N ≤ length s.now }
    ensures { Says result (Clear (λ b. F.post finds b false) s.now from (from + N)) }
{
    let mut found = false;
    for k in 0..N {
        if finds(s[from + k]) {
            found = true;
        }
    }
    !found
}

// The end of the first windows of N bytes, from `from` on, in which the test finds none.
pub fn clear_windows<const N: usize, F: Fn(u8) -> bool>(s: &[u8], from: usize, finds: F) -> usize
    requires callable { F.IsAlwaysCallable finds }
    requires some { 0 < N }
    requires inside { from ≤ length s.now }
    ensures inside { (from ≤ result) × (result ≤ length s.now) }
    ensures clear { Clear (λ b. F.post finds b false) s.now from result }
{
    // A `for` over chunks would count `at`, which is the answer, in the same way.
    let mut at = from;
    while N <= s.len() - at && is_clear::<N, _>(s, at, &finds) {
        at += N;
    }
    at
}

// The place of the first byte from `from` on that the test finds, or the length.
pub fn first_found<F: Fn(u8) -> bool>(s: &[u8], from: usize, finds: F) -> usize
    requires callable { F.IsAlwaysCallable finds }
    requires inside { from ≤ length s.now }
    ensures inside { (from ≤ result) × (result ≤ length s.now) }
    ensures clear { Clear (λ b. F.post finds b false) s.now from result }
    ensures next { result < length s.now → F.post finds (slice_index s.now result) true }
{
    for at in from..s.len() {
        if finds(s[at]) {
            return at;
        }
    }
    s.len()
}

// The same of all bytes, those of whole windows of N looked at together.
pub fn first_by_windows<const N: usize, F: Fn(u8) -> bool>(s: &[u8], finds: F) -> usize
    requires callable { F.IsAlwaysCallable finds }
    requires some { 0 < N }
    ensures inside { result ≤ length s.now }
    ensures clear { Clear (λ b. F.post finds b false) s.now 0 result }
    ensures next { result < length s.now → F.post finds (slice_index s.now result) true }
{
    first_found(s, clear_windows::<N, _>(s, 0, &finds), finds)
}

// Whether the eight bytes from `from` on are ASCII and none is the one that is asked for.
fn calm_eight(s: &[u8], from: usize, odd: u8) -> bool
    requires { from + 8 ≤ length s.now }
    ensures { Says result (Calm odd s.now from (from + 8)) }
{
    is_clear::<8, _>(s, from, |b| b == odd || 127 < b)
}

// The bytes from..to, where they are at most eight. They are looked at with those before them.
pub fn calm(s: &[u8], from: usize, to: usize, odd: u8) -> bool
    requires { (from ≤ to) × (to ≤ length s.now) }
    ensures { Says result (Calm odd s.now from to) }
{
    to - from <= 8 && 8 <= to && calm_eight(s, to - 8, odd)
}

// The same of the bytes from..to, where they are at most eight, with those before them, which need not be ASCII.
pub fn lacks(s: &[u8], from: usize, to: usize, odd: u8) -> bool
    requires { (from ≤ to) × (to ≤ length s.now) }
    ensures { Says result (Lacks odd s.now from to) }
{
    to - from <= 8 && 8 <= to && is_clear::<8, _>(s, to - 8, |b| b == odd)
}

// The bytes from..to, where they are at most sixteen: the first eight, which may end behind them, and the last eight.
pub fn calm_ahead(s: &[u8], from: usize, to: usize, odd: u8) -> bool
    requires { (from ≤ to) × (to ≤ length s.now) }
    ensures { Says result (Calm odd s.now from to) }
{
    // the test that both looks behind it need
    if 16 < to - from || s.len() - from < 8 {
        return false;
    }
    calm_eight(s, from, odd) && (to - from <= 8 || calm_eight(s, to - 8, odd))
}
