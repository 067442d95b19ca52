// The program `rewrite` on a lent text and a lent output (document 01, "The printed form"), and the same with any allowance.
ghost use Rattle.std.specs.Prelude.{◌≡◌};
ghost use Rattle.output.specs.Writer.{written, Puts};
ghost use Rattle.printing.specs.Printed.{printed_at};
ghost use Rattle.printing.specs.Printing.{Room, JobPut, Prints, PrintsAt};

use crate::found::put_found;
use crate::judged::put_verdict;
use crate::lines::put_refusal;
use crate::names::first_names;
use finding::operation::find;
use output::Writer;
use reading::{Job, load};
use syntax::{Names, Span};

// What is printed for a job, with the places of its names.
fn put_job(
    w: &mut Writer<'_>,
    text: &[u8],
    names: &[Span; 48],
    job: Job,
    allowance: u64,
    path: &mut [u8],
    workspace: &mut [u64],
)
    requires { Room allowance path.old workspace.old }
    ensures same_reference { w.new.out.ghost_name ≡ w.old.out.ghost_name }
    ensures puts { JobPut text.now names.now job.labels job.lists allowance (written w.old) (written w.new) }
{
    let mut table: [u16; 4096] = [0; 4096];
    let mut flags: [u8; 256] = [0; 256];
    match find(text, &mut table, &mut flags) {
        Ok(found) => {
            let listed = first_names(&names[32..], job.lists);
            let labelled = first_names(names, job.labels);
            put_found(
                w,
                Names {
                    text,
                    spans: listed,
                },
                found,
                &table,
                &flags,
            );
            put_verdict(
                w,
                Names {
                    text,
                    spans: labelled,
                },
                allowance,
                path,
                workspace,
            );
        }
        Err(refused) => put_refusal(w, refused),
    }
}

// With a path and a workspace for Verdict.
fn put_printed(
    w: &mut Writer<'_>,
    text: &[u8],
    allowance: u64,
    path: &mut [u8],
    workspace: &mut [u64],
)
    requires { Room allowance path.old workspace.old }
    ensures { Puts w.old (printed_at allowance text.now) w.new }
{
    let mut names = [Span::EMPTY; 48];
    let mut follow = [0; 1088];
    let mut enter = [0; 544];
    let mut sizes = [0; 17];
    let mut accepting = [0; 17];
    let read = load(
        text,
        &mut names,
        &mut follow,
        &mut enter,
        &mut sizes,
        &mut accepting,
    );
    match read {
        Ok(job) => put_job(w, text, &names, job, allowance, path, workspace),
        Err(refused) => put_refusal(w, refused),
    }
}

// Puts what is printed in front of the output and returns how many bytes it has.
pub fn print(text: &[u8], out: &mut [u8; 32768]) -> usize
    ensures { Prints text.now out.old result out.new }
{
    let mut path: [u8; 128] = [0; 128];
    let mut workspace: [u64; 2304] = [0; 2304];
    let mut w = Writer::new(out);
    put_printed(&mut w, text, 128, &mut path, &mut workspace);
    w.at
}

// The same with this allowance in place of 128: 18 words for each pair that may be allowed, 576 KiB, stand on the stack.
pub fn print_at(text: &[u8], allowance: u64, out: &mut [u8; 98304]) -> usize
    ensures { PrintsAt allowance text.now out.old result out.new }
{
    let mut path: [u8; 4096] = [0; 4096];
    let mut workspace: [u64; 73728] = [0; 73728];
    let mut w = Writer::new(out);
    put_printed(&mut w, text, allowance, &mut path, &mut workspace);
    w.at
}
