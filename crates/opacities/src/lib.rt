// The shortest decimal of an opacity, from its float's bits, in 64-bit arithmetic.

#![tactic(auto)]

ghost use Rattle.std.specs.Prelude.{◌≡◌, true, false};
ghost use Rattle.std.specs.Float.{binary32};
ghost use Rattle.rules.specs.Search as rules;
ghost use Rattle.rules.specs.Sizes.{signed_decimal};
ghost use Rattle.rules.specs.Walk.{right_opacity};
ghost use Rattle.digits.specs.Said.{decimal_of};
ghost use Rattle.opacities.specs.Picked.{Sized, Reached, said, picked};
ghost use Rattle.opacities.specs.Scaled.{DecimalOf};

use digits::Decimal;

// The weight of the exponent's field in a float's bits, and in the significand that of the leading one, which the bits leave out.
const LEADING: u32 = 0x80_0000;

// The field at which the value is the significand itself: with each field below that it halves.
const WHOLE: u32 = 150;

// The value is m / u, and t is a power of ten. Of the two whole numbers next to the value times t: the one that over t reads back, and of both the
// closer. What lies up to half of 1 / u off reads back, and below a power of two up to a quarter: there d is 4, and else 2. That far off counts
// where m is even.
fn at_places(m: u64, u: u64, d: u64, t: u64) -> Option<u64>
    requires { Sized m u d t }
    ensures { said result ≡ picked m u d t }
{
    let scaled = m * t;
    let n = scaled / u;
    let r = scaled % u;
    let odd = m % 2;
    let lower = d * r + odd <= t;
    let upper = 2 * (u - r) + odd <= t;
    // of two, the closer; a tie goes to the larger
    if lower && (!upper || r < u - r) {
        Some(n)
    } else if upper {
        Some(n + 1)
    } else {
        None
    }
}

// The fewest places that have one. The requirement that ten do bounds the loop; behind a `for` there would be an end that is never reached.
fn search(m: u64, u: u64, d: u64) -> Decimal
    requires sized { Sized m u d 1 }
    requires reached { Reached m u d }
    ensures { DecimalOf m u d (decimal_of result) }
{
    let mut t: u64 = 1;
    let mut places: u64 = 0;
    loop {
        if let Some(whole) = at_places(m, u, d, t) {
            return Decimal {
                negative: false,
                whole,
                places,
            };
        }
        t *= 10;
        places += 1;
    }
}

// The shortest decimal of an opacity's bits.
pub fn shortest(bits: u32) -> Decimal
    requires { right_opacity bits ≡ true }
    ensures { decimal_of result ≡ signed_decimal false (rules.shortest binary32 false bits) }
{
    if bits == 0 {
        return Decimal {
            negative: false,
            whole: 0,
            places: 0,
        };
    }
    let low = bits % LEADING;
    let m = (LEADING + low) as u64;
    let u = 1u64 << (WHOLE - bits / LEADING);
    if low == 0 {
        return search(m, u, 4);
    }
    search(m, u, 2)
}
