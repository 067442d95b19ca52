// The text from standard input. A read that fails is told from the end of the input, so that no part of a job is taken for the whole.
ghost use Rattle.std.specs.Prelude.{◌≤◌, length, IfOk};

use std::io;
use std::io::{Read, Stdin};

// Reads until the text is full, the input ends or a read fails: how many bytes were read.
pub fn read_input(mut from: Stdin, text: &mut [u8]) -> io::Result<usize>
    ensures { IfOk result (λ n. n ≤ length text.new) }
{
    let mut done: usize = 0;
    // No `for`: a read gives as many bytes as it has.
    while done < text.len() {
        let count = from.read(&mut text[done..])?;
        if count == 0 {
            return Ok(done);
        }
        done += count;
    }
    Ok(done)
}
