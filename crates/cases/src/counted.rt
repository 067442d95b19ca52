// The counts beyond Find's limits, written behind the refused cases.
ghost use Rattle.std.specs.Prelude.{◌≤◌, length};

use crate::count::{Limited, count};
use listed::{Listed, put_case};
use output::Writer;
use std::io;
use std::io::{Stdout, Write};

// `counted 65 standings`
fn put_count(out: &mut [u8], number: usize, word: &[u8]) -> usize
    ensures { result ≤ length out.new }
{
    let mut w = Writer::new(out);
    w.put_part(b"counted ");
    w.put_number(number as u64);
    w.put_part(word);
    w.at
}

fn write_count(mut to: Stdout, number: usize, word: &[u8]) -> io::Result<()> {
    let mut line = [0u8; 64];
    let end = put_count(&mut line, number, word);
    to.write_all(&line[..end])
}

pub(super) fn show_count(to: Stdout, case: Listed, kind: Limited) -> io::Result<()> {
    let mut text = [0u8; 8192];
    let size = put_case(case, &mut text);
    let number = count(&text[..size], kind);
    match kind {
        Limited::Standings => write_count(to, number, b" standings\n"),
        Limited::States => write_count(to, number, b" states\n"),
    }
}
