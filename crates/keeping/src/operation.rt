// Keep (document 01): the greatest rewriting of a job's query, written to bytes.
ghost use Rattle.std.specs.Prelude.{◌≡◌, ◌≤◌, length, Ok};
ghost use Rattle.reading.specs.Read.{read};
ghost use Rattle.reading.specs.Answering.{counts};
ghost use Rattle.reading.specs.Loading.{tables, Loaded};
ghost use Rattle.keeping.specs.Kept.{kept_length};
ghost use Rattle.keeping.specs.KeepOperation.{left, left_by_reading, outcome};

use crate::writer::{LENGTH, write};
use finding::clear::clear;
use finding::job_rows::find_rows;
use finding::rows::JobRows;
use reading::{Refused, load};
use syntax::{Names, Refusal, Span};

// Keep on the rows of a job, which reading left there, and the table of its names.
fn keep_job(
    text: &[u8],
    names: &[Span; 48],
    job: JobRows<'_>,
    out: &mut [u8],
) -> Result<u64, Refused>
    requires { (kept_length ≤ length out.old) × Loaded text.now (Ok (counts job.labels job.lists))
        (tables names.now job.follow.now job.enter.now job.sizes.now job.accepting.now) }
    ensures { left result out.new ≡ left_by_reading (read text.now) out.old }
{
    let mut table: [u16; 4096] = [0; 4096];
    let mut flags: [u8; 256] = [0; 256];
    match find_rows(job, 64, 256, &mut table, &mut flags) {
        Ok(found) => {
            let spans = &names[32..32 + job.lists as usize];
            Ok(write(Names { text, spans }, found.states, &table, &flags, out))
        }
        Err(refused) => {
            clear(out, LENGTH);
            Err(refused)
        }
    }
}

// The output gets 8,728 bytes; what lies beyond stays.
pub fn keep(text: &[u8], out: &mut [u8]) -> Result<u64, Refused>
    ensures { left result out.new ≡ outcome text.now out.old }
{
    if out.len() < LENGTH {
        return Err(Refused::from(Refusal::BufferTooShort));
    }
    let mut names = [Span::EMPTY; 48];
    let mut follow = [0; 1088];
    let mut enter = [0; 544];
    let mut sizes = [0; 17];
    let mut accepting = [0; 17];
    let job = load(
        text,
        &mut names,
        &mut follow,
        &mut enter,
        &mut sizes,
        &mut accepting,
    )?;
    let rows = JobRows {
        labels: job.labels,
        lists: job.lists,
        follow: &follow,
        enter: &enter,
        sizes: &sizes,
        accepting: &accepting,
    };
    keep_job(text, &names, rows, out)
}
