// Numbers as texts: decimal digits, a sign, a point, hexadecimal digits. None by `Display`: a Formatter fails where a page has no room, and a
// page counts what it has no room for (`Written`).

#![tactic(auto)]

ghost use Rattle.std.specs.Prelude.{◌≡◌, ◌+◌, ◌/◌, ◌%◌, ◌^◌, ◌≤◌, ◌<◌, ◌++◌, ◌∷◌, List, ℕ, length, drop, []};
ghost use Rattle.rules.specs.Html.{separated};
ghost use Rattle.rules.specs.Digits.{digit, digits, hex, hex_digit, signed_digits, last_digits, fraction, sign, decimal_text};
ghost use Rattle.writing.specs.Written.{Put};
ghost use Rattle.digits.specs.Said.{decimal_of};
ghost use Rattle.digits.specs.Room.{room};

use std::marker::Model;
use writing::Page;

// A decimal: whole over 10 ^ places, with a sign in front where it is negative.
#[derive(Debug, Clone, Copy, PartialEq, Eq)]
pub struct Decimal {
    pub negative: bool,
    pub whole: u64,
    pub places: u64,
}

// The bytes of the longest text and one to spare: 21 digits at the most, a point and a sign.
const ROOM: usize = 24;

// The text of a number, gathered from its last byte back, as division gives the last digit first. The memory is fixed, for there is no heap.
#[derive(Drop)]
struct Numeral {
    bytes: [u8; ROOM],
    from: usize,
}

// Clauses see the text.
impl Model for Numeral {
    ghost Value = { List ℕ };

    ghost view = { λ f. drop f.from f.bytes };

    ghost invariant = { λ f. f.from ≤ room };
}

fn last_digit(n: u64) -> u8
    ensures { result ≡ digit (n % 10) }
{
    b'0' + (n % 10) as u8
}

impl Numeral {
    fn new() -> Numeral
        ensures { result ≡ [] }
    {
        Numeral {
            bytes: [0; ROOM],
            from: ROOM,
        }
    }

    fn text(&self) -> &[u8]
        ensures { result.now ≡ self.now }
    {
        &self.bytes[self.from..]
    }

    // A byte before the text.
    fn push(&mut self, b: u8)
        requires { length self.old < room }
        ensures { self.new ≡ b ∷ self.old }
    {
        self.from -= 1;
        self.bytes[self.from] = b;
    }

    // The decimal digits of n.
    fn push_digits(&mut self, n: u64)
        requires { length (digits n) + length self.old ≤ room }
        ensures { self.new ≡ digits n ++ self.old }
    {
        let mut left = n;
        // no plainer by an iterator: the digits are what the loop itself divides out
        while left >= 10 {
            self.push(last_digit(left));
            left /= 10;
        }
        self.push(last_digit(left));
    }

    // The last digits of n, as many as there are places, zeros included; what is left of n stands before the point.
    fn push_places(&mut self, n: u64, places: u64) -> u64
        requires { places + length self.old ≤ room }
        ensures { (result ≡ n / 10 ^ places) × (self.new ≡ last_digits places n ++ self.old) }
    {
        let mut left = n;
        for _ in 0..places {
            self.push(last_digit(left));
            left /= 10;
        }
        left
    }

    // The sign of a negative number.
    fn push_sign(&mut self, negative: bool)
        requires { length self.old < room }
        ensures { self.new ≡ sign negative ++ self.old }
    {
        if negative {
            self.push(b'-');
        }
    }

    // The places of a decimal and the point before them, if there are any; what is left stands before it.
    fn push_fraction(&mut self, n: u64, places: u64) -> u64
        requires { places + length self.old < room }
        ensures { (result ≡ n / 10 ^ places) × (self.new ≡ fraction places n ++ self.old) }
    {
        let left = self.push_places(n, places);
        if places > 0 {
            self.push(b'.');
        }
        left
    }
}

// The decimal digits of a byte, one to three.
pub fn put_byte(page: &mut Page<'_>, b: u8)
    ensures { Put page.old (digits b) page.new }
{
    match b {
        0..=9 => page.put(b'0' + b),
        10..=99 => page.put_bytes(&[b'0' + b / 10, b'0' + b % 10]),
        _ => page.put_bytes(&[b'0' + b / 100, b'0' + b / 10 % 10, b'0' + b % 10]),
    }
}

// A hexadecimal digit, in lower case.
fn hex_digit(d: u8) -> u8
    requires { d < 16 }
    ensures { result ≡ hex_digit d }
{
    if d < 10 { b'0' + d } else { b'a' + (d - 10) }
}

// The two hexadecimal digits of a byte.
fn hex_pair(b: u8) -> [u8; 2]
    ensures { result ≡ hex b }
{
    [hex_digit(b / 16), hex_digit(b % 16)]
}

// The hexadecimal digits of a colour's three bytes, written as one slice.
pub fn put_hex(page: &mut Page<'_>, rgb: [u8; 3])
    ensures { Put page.old (separated hex [] rgb) page.new }
{
    let [a, b] = hex_pair(rgb[0]);
    let [c, d] = hex_pair(rgb[1]);
    let [e, f] = hex_pair(rgb[2]);
    page.put_bytes(&[a, b, c, d, e, f])
}

// The digits of a number with a sign.
pub fn put_signed(page: &mut Page<'_>, z: i32)
    ensures { Put page.old (signed_digits z) page.new }
{
    let mut numeral = Numeral::new();
    numeral.push_digits(u64::from(z.unsigned_abs()));
    numeral.push_sign(z < 0);
    page.put_bytes(numeral.text())
}

// A decimal, from its end: the places, the point, what stands before it, the sign.
pub fn put_decimal(page: &mut Page<'_>, d: Decimal)
    requires { d.places ≤ 20 }
    ensures { Put page.old (decimal_text (decimal_of d)) page.new }
{
    let mut numeral = Numeral::new();
    let left = numeral.push_fraction(d.whole, d.places);
    numeral.push_digits(left);
    numeral.push_sign(d.negative);
    page.put_bytes(numeral.text())
}
