// House fields, written at a position.
// A tag or a code stays a number: the contracts here hold of every one (docs/CONTRACTS.md).
ghost use Rattle.std.specs.Prelude.{[], ◌∷◌, ◌<◌, ◌/◌, ◌%◌, length};
ghost use Rattle.rules.specs.Encode.{field};
ghost use Rattle.scripts.specs.Shown.{open_header};
ghost use Rattle.writing.specs.Written.{Written};

use writing::put_bytes;

// A tag or a code, and a number of two bytes behind it, high byte first.
pub fn put_header(page: &mut [u8], at: usize, tag: u8, n: usize) -> usize
    requires { n < 65_536 }
    ensures { Written page.old at (open_header tag n) page.new result }
{
    let [high, low] = (n as u16).to_be_bytes();
    put_bytes(page, at, &[tag, high, low])
}

// A field whose value is bytes.
pub fn put_field(page: &mut [u8], at: usize, tag: u8, v: &[u8]) -> usize
    requires { length v.now < 65_536 }
    ensures { Written page.old at (field tag v.now) page.new result }
{
    let next = put_header(page, at, tag, v.len());
    put_bytes(page, next, v)
}
