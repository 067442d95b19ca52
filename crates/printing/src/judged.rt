// What Verdict gives: the lines after `first`.
ghost use Rattle.std.specs.Prelude.{◌≡◌};
ghost use Rattle.output.specs.Writer.{written};
ghost use Rattle.printing.specs.Printing.{Room, VerdictPut};

use crate::lines::{put_count, put_refusal};
use crate::names::put_named_line;
use output::Writer;
use syntax::{Names, Span};
use verdict::{Verdict, judge};

// Verdict runs in the lent path and workspace.
pub fn put_verdict(
    w: &mut Writer<'_>,
    labels: Names<'_>,
    allowance: u64,
    path: &mut [u8],
    workspace: &mut [u64],
)
    requires { Room allowance path.old workspace.old }
    ensures same_reference { w.new.out.ghost_name ≡ w.old.out.ghost_name }
    ensures puts { VerdictPut labels.entry.text.now labels.entry.spans.now allowance (written w.old) (written w.new) }
{
    let mut table: [u16; 4096] = [0; 4096];
    let mut flags: [u8; 256] = [0; 256];
    match judge(
        labels.text,
        allowance,
        &mut table,
        &mut flags,
        path,
        workspace,
    ) {
        Ok(Verdict::Complete(pairs)) => {
            w.put_part(b"complete\n");
            put_count(w, b"pairs ", pairs);
        }
        Ok(Verdict::Missed(size, pairs)) => {
            put_named_line(w, b"missed", labels, Span { start: 0, size }.of(path));
            put_count(w, b"pairs ", pairs);
        }
        Err(refused) => put_refusal(w, refused),
    }
}
