// Runs a file and two masks of it through all entries, and says of each whether the answers agree and the bytes differ only where bytes of
// texts are copied. Input: two bytes of width, then the file, its mask by one letter and its mask by another, all of one length. What is copied
// shows where the two masks' pages differ.

#![tactic(auto)]

use hazomeny::{
    hazomeny_check, hazomeny_html_body, hazomeny_html_document, hazomeny_layout, hazomeny_plain,
};
use intake::read_full;
use std::io;

fn all_equal(a: u64, b: u64, c: u64) -> bool {
    a == b && b == c
}

// Where the file's bytes differ from one mask's, that mask's differ from the other's: the place is copied from a text.
fn differ_where_copied(file: &[u8], mask: &[u8], other: &[u8]) -> bool {
    if mask.len() < file.len() || other.len() < file.len() {
        return false;
    }
    let masks = mask.iter().zip(other);
    file.iter().zip(masks).all(|(f, (m, o))| f == m || m != o)
}

fn say(rt: &impl Print, entry: &str, alike: bool) -> io::Result<()> {
    if alike {
        return println!(rt; "{entry} alike");
    }
    println!(rt; "{entry} NOT alike")
}

fn checks_alike(file: &[u8], mask: &[u8], other: &[u8]) -> bool {
    all_equal(
        hazomeny_check(file),
        hazomeny_check(mask),
        hazomeny_check(other),
    )
}

// The files stay laid out.
fn layouts_alike(file: &mut [u8], mask: &mut [u8], other: &mut [u8], width: usize) -> bool {
    let a = hazomeny_layout(file, width);
    let b = hazomeny_layout(mask, width);
    let c = hazomeny_layout(other, width);
    all_equal(a, b, c) && differ_where_copied(file, mask, other)
}

fn pages_alike<F: Fn(&[u8], &mut [u8]) -> u64>(
    entry: F,
    file: &[u8],
    mask: &[u8],
    other: &[u8],
) -> bool
    requires { F.IsAlwaysCallable entry }
{
    // fixed memory: there is no heap
    let mut page = [0u8; 65536];
    let mut masked = [0u8; 65536];
    let mut again = [0u8; 65536];
    let a = entry(file, &mut page);
    let b = entry(mask, &mut masked);
    let c = entry(other, &mut again);
    all_equal(a, b, c) && differ_where_copied(&page, &masked, &again)
}

fn compare(
    rt: &impl Print,
    file: &mut [u8],
    mask: &mut [u8],
    other: &mut [u8],
    width: usize,
) -> io::Result<()> {
    say(rt, "check", checks_alike(file, mask, other))?;
    say(rt, "layout", layouts_alike(file, mask, other, width))?;
    let plain = pages_alike(hazomeny_plain, file, mask, other);
    say(rt, "plain page", plain)?;
    let body = pages_alike(hazomeny_html_body, file, mask, other);
    say(rt, "HTML body", body)?;
    let document = pages_alike(hazomeny_html_document, file, mask, other);
    say(rt, "HTML document", document)
}

// `copy_from_slice` asks for slices of one length.
fn copy(from: &[u8], into: &mut [u8]) {
    if from.len() < into.len() {
        return;
    }
    into.copy_from_slice(&from[..into.len()]);
}

// The three files, each in a buffer of its own length: layout changes them.
fn compare_files(
    rt: &impl Print,
    files: &[u8],
    file: &mut [u8],
    mask: &mut [u8],
    other: &mut [u8],
    width: usize,
) -> io::Result<()> {
    let n = files.len() / 3;
    copy(&files[..n], file);
    copy(&files[n..n + n], mask);
    copy(&files[n + n..], other);
    compare(rt, file, mask, other, width)
}

fn main(rt: HostRuntime) -> io::Result<()> {
    // fixed memory: there is no heap
    let mut input = [0u8; 196608];
    let mut file = [0u8; 65536];
    let mut mask = [0u8; 65536];
    let mut other = [0u8; 65536];
    let n = read_full(&mut rt.stdin(), &mut input)?;
    if n < 2 {
        return Ok(());
    }
    let width = usize::from(u16::from_be_bytes([input[0], input[1]]));
    let each = (n - 2) / 3;
    if 65536 < each {
        return Ok(());
    }
    compare_files(
        &rt,
        &input[2..n],
        &mut file[..each],
        &mut mask[..each],
        &mut other[..each],
        width,
    )
}
