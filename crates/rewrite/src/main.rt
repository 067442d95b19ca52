// The program `rewrite` (document 01, "The printed form"): a job from standard input, its rewriting and its verdict to standard output.
// One byte more than a job may have is enough to refuse a longer text. Where the input cannot be read, nothing is judged.
#![tactic(auto)]

mod input;

use input::read_input;
use printing::print;
use std::io;
use std::io::Write;

fn main(rt: HostRuntime) -> io::Result<()> {
    let mut text = [0u8; 8193];
    let mut out = [0u8; 32768];
    match read_input(rt.stdin(), &mut text) {
        Ok(count) => {
            let size = print(&text[..count], &mut out);
            if rt.stdout().write_all(&out[..size]).is_err() {
                rt.stderr()
                    .write_all(b"rewrite: standard output cannot be written\n")?;
            }
        }
        Err(_) => {
            rt.stderr()
                .write_all(b"rewrite: standard input cannot be read\n")?;
        }
    }
    Ok(())
}
