// Marks beside a file: a bit for each place, 64 in a word. A mark says that a 4 is shown as a 3.

#![tactic(auto, unfolding(rules::specs::Marks::marked))]

ghost use Rattle.std.specs.Prelude.{◌≡◌};
ghost use Rattle.rules.specs.Marks.{marked};

// Whether a place is marked; where there is no word for it, it is not.
pub fn is_marked(marks: &[u64], at: usize) -> bool
    ensures { result ≡ marked marks.now at }
{
    let Some(word) = marks.get(at / 64) else {
        return false;
    };
    (*word >> (at % 64) as u64) % 2 == 1
}
