// The marks of P8: three recordings, from the links and from the lists, start 0.
ghost use Rattle.std.specs.Prelude.{◌≤◌, length};

use answering::{answer_from_links, answer_from_lists};
use listed::{Listed, put_case};
use output::Writer;
use std::io;
use std::io::{Stdout, Write};

// `links 1 0 1`
fn put_marks(out: &mut [u8], word: &[u8], marks: &[u8; 3]) -> usize
    ensures { result ≤ length out.new }
{
    let mut w = Writer::new(out);
    w.put_part(word);
    for mark in marks {
        w.put(b' ');
        w.put_number(u64::from(*mark));
    }
    w.put(b'\n');
    w.at
}

fn write_marks(mut to: Stdout, word: &[u8], marks: &[u8; 3]) -> io::Result<()> {
    let mut line = [0u8; 64];
    let end = put_marks(&mut line, word, marks);
    to.write_all(&line[..end])
}

// A mark that is left alone shows as 2.
pub(super) fn show_marks(to: Stdout) -> io::Result<()> {
    let mut text = [0u8; 8192];
    let size = put_case(Listed::Proved(8), &mut text);
    let job = &text[..size];
    let links: [u16; 9] = [0, 0, 1, 1, 1, 0, 1, 2, 2];
    let lists: [u16; 6] = [0, 0, 1, 1, 1, 0];
    let mut workspace = [0u64; 12];
    let mut linked = [2u8; 3];
    let mut listed = [2u8; 3];
    let _ = answer_from_links(job, 3, 0, &links, 0, &mut linked, &mut workspace);
    let _ = answer_from_lists(job, 3, &lists, 0, &mut listed, &mut workspace);
    write_marks(to, b"links", &linked)?;
    write_marks(to, b"lists", &listed)
}
