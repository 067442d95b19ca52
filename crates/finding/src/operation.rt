// Find (document 01): the greatest rewriting of a job's query, from the job text.
ghost use Rattle.std.specs.Prelude.{◌≡◌, ◌≤◌, length, replicate};
ghost use Rattle.reading.specs.RowRoom.{asked_rows, HasRows};
ghost use Rattle.finding.specs.Outcome.{left, told};
ghost use Rattle.finding.specs.Operation.{leaving, outcome};

use crate::answer::Found;
use crate::job_rows::find_rows;
use crate::rows::JobRows;
use reading::{Refused, lists_at_most, load_rows};
use syntax::{Refusal, Span};

// Find in tables of so many words, which have rows for the job.
fn find_in<const FOLLOW: usize, const ENTER: usize>(
    text: &[u8],
    table: &mut [u16],
    marks: &mut [u8],
) -> Result<Found, Refused>
    requires rows { HasRows (asked_rows text.now) (replicate FOLLOW 0) (replicate ENTER 0) }
    requires small { (FOLLOW ≤ 1088) × (ENTER ≤ 544) }
    requires lent { (4096 ≤ length table.old) × (256 ≤ length marks.old) }
    ensures { left result table.new marks.new
        ≡ leaving text.now table.old marks.old }
{
    let mut names = [Span::EMPTY; 48];
    let mut follow = [0; FOLLOW];
    let mut enter = [0; ENTER];
    let mut sizes = [0; 17];
    let mut accepting = [0; 17];
    let job = load_rows(
        text,
        &mut names,
        &mut follow,
        &mut enter,
        &mut sizes,
        &mut accepting,
    )?;
    let rows = JobRows {
        labels: job.labels,
        lists: job.lists,
        follow: &follow,
        enter: &enter,
        sizes: &sizes,
        accepting: &accepting,
    };
    find_rows(rows, 64, 256, table, marks)
}

// The table gets 4,096 numbers and the flags 256 bytes; what lies beyond stays. To zero tables for 16 lists takes longer than to find the
// states of a small job, so that a text of few lists has smaller ones.
pub fn find(text: &[u8], table: &mut [u16], marks: &mut [u8]) -> Result<Found, Refused>
    ensures { told (left result table.new marks.new)
        ≡ outcome text.now table.old marks.old }
{
    if table.len() < 4096 || marks.len() < 256 {
        return Err(Refused::from(Refusal::BufferTooShort));
    }
    let lists = lists_at_most(text);
    if lists <= 2 {
        find_in::<256, 128>(text, table, marks)
    } else if lists <= 4 {
        find_in::<384, 192>(text, table, marks)
    } else {
        find_in::<1088, 544>(text, table, marks)
    }
}
