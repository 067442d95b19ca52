// A case: its title, and the printed form of its text with an allowance.
ghost use Rattle.std.specs.Prelude.{◌≤◌, length};

use listed::{Listed, put_case};
use output::Writer;
use printing::print_at;
use std::io;
use std::io::{Stdout, Write};

// `case P1, allowance 11`
fn put_title(out: &mut [u8], title: &[u8], allowance: u64) -> usize
    ensures { result ≤ length out.new }
{
    let mut w = Writer::new(out);
    w.put_part(b"case ");
    w.put_part(title);
    w.put_part(b", allowance ");
    w.put_number(allowance);
    w.put(b'\n');
    w.at
}

pub(super) fn run(mut to: Stdout, title: &[u8], case: Listed, allowance: u64) -> io::Result<()> {
    let mut line = [0u8; 64];
    let mut text = [0u8; 8192];
    let mut out = [0u8; 98304];
    let end = put_title(&mut line, title, allowance);
    let size = put_case(case, &mut text);
    let printed = print_at(&text[..size], allowance, &mut out);
    to.write_all(&line[..end])?;
    to.write_all(&out[..printed])
}
