// Em sizes: the double 1.0 + size × 0.1 as a decimal, for the sizes -128 to 117.

#![tactic(auto)]

ghost use Rattle.std.specs.Prelude.{◌≡◌, pos, ◌≤ℤ◌};
ghost use Rattle.rules.specs.Sizes as rules;
ghost use Rattle.sizes.specs.Table.{place_of, Right};
ghost use Rattle.digits.specs.Said.{decimal_of};

mod table;

use digits::Decimal;
use table::TABLE;

// Where a size stands in the table. No `From`: a size above 117 has no place.
fn place(size: i8) -> usize
    requires { size ≤ℤ pos 117 }
    ensures { result ≡ place_of size }
{
    usize::from(size.abs_diff(i8::MIN))
}

// What a right table says of a size; from -11 downwards it is below zero. The table is a parameter so that the proof can speak of it: that the
// constants are right is then one fact, in the proof of `em`.
fn entry(table: &[(u64, u8); 246], size: i8) -> Decimal
    requires right { Right table.now }
    requires size_bound { size ≤ℤ pos 117 }
    ensures { decimal_of result ≡ rules.em size }
{
    let (whole, places) = table[place(size)];
    Decimal {
        negative: size < -10,
        whole,
        places: u64::from(places),
    }
}

// 1.0 + size × 0.1 in doubles, as a decimal.
pub fn em(size: i8) -> Decimal
    requires { size ≤ℤ pos 117 }
    ensures { decimal_of result ≡ rules.em size }
{
    entry(&TABLE, size)
}
