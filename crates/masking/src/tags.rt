// What a field's tag says: whether its value is a text, whether it is fields, and where the next field stands.
// A tag stays a byte of the file (`verify::tables`).
ghost use Rattle.std.specs.Prelude.{◌≡◌, true};
ghost use Rattle.rules.specs.Walk.{is_text};
ghost use Rattle.rules.specs.Mask.{newlines, mask_byte};
ghost use Rattle.pairs.specs.Flat.{is_holder, next_place};

#[tactic(auto, unfolding(rules::specs::Walk::is_text))]
pub fn is_text(tag: u8) -> bool
    ensures { result ≡ is_text tag }
{
    tag == 17 || tag == 7
}

#[tactic(auto, unfolding(pairs::specs::Flat::is_holder, pairs::specs::Flat::is_some, rules::specs::Walk::holds))]
fn is_holder(tag: u8) -> bool
    ensures { result ≡ is_holder tag }
{
    matches!(tag, 1..=4 | 8 | 16)
}

// Behind the three bytes of what holds fields, else behind the value.
#[tactic(auto, unfolding(pairs::specs::Flat::next_place))]
pub fn next_place(tag: u8, from: usize, to: usize) -> usize
    ensures { result ≡ next_place tag from to }
{
    if is_holder(tag) {
        return from;
    }
    to
}

// A newline stays, and every other byte of a text becomes `x`.
#[tactic(auto, unfolding(rules::specs::Mask::mask_byte, rules::specs::Bytes::has))]
pub fn masked(b: u8) -> u8
    ensures { result ≡ mask_byte newlines true b }
{
    if b == b'\n' {
        return b;
    }
    b'x'
}
