// Answer from lists: the rewriting that Find gives for a job, over a table of links over its lists.
ghost use Rattle.std.specs.Prelude.{◌≡◌, ◌≤◌, true, replicate};
ghost use Rattle.theory.specs.Job.{Job, WellFormed};
ghost use Rattle.reading.specs.Answering.{value_reply};
ghost use Rattle.reading.specs.Read.{read};
ghost use Rattle.reading.specs.RowRoom.{asked_rows, HasRows};
ghost use Rattle.finding.specs.Find.{Found as Finds, find};
ghost use Rattle.answering.specs.Table.{is_table};
ghost use Rattle.answering.specs.AnswerJob.{marked_lists, lists_job};
ghost use Rattle.answering.specs.LinksOperation.{outcome};
ghost use Rattle.answering.specs.JobTables.{JobIn};
ghost use Rattle.answering.specs.ListsCore.{ListsLent};
ghost use Rattle.answering.specs.ListsOperation.{lists_reply, lists_left, read_lists, lists_answer, ListsSized, FoundGiven};

use super::indexed::Indexed;
use super::lists_core::mark_lists;
use super::table::index_table;
use finding::answer::Found;
use finding::clear::clear;
use finding::job_rows::find_rows;
use finding::rows::JobRows;
use reading::{Refused, lists_at_most, load_rows};
use syntax::{Refusal, Span};

// The marks by what Find tells and leaves; where it refuses, zeros.
fn finding_lists(
    told: Result<Found, Refused>,
    next: &[u16],
    flags: &[u8; 256],
    links: Indexed<'_>,
    start: u64,
    marks: &mut [u8],
    workspace: &mut [u64],
) -> Result<u64, Refused>
    requires { ListsLent links.recordings start marks.old workspace.old }
    ensures { (F : Finds) → FoundGiven F links.entry.symbols told next.now flags.now links.entry.table.now links.entry.recordings
        → outcome (value_reply result) marks.new workspace.new
        ≡ lists_left links.entry.recordings marks.old workspace.old
        (marked_lists links.entry.recordings links.entry.table.now start F) }
{
    match told {
        Ok(found) => Ok(mark_lists(next, flags, found.states, links, start, marks, workspace)),
        Err(refused) => {
            clear(marks, links.recordings as usize);
            clear(workspace, (4 * links.recordings) as usize);
            Err(refused)
        }
    }
}

// The marks by the rewriting of the job of the rows.
fn rewriting_lists(
    rows: JobRows<'_>,
    links: Indexed<'_>,
    start: u64,
    marks: &mut [u8],
    workspace: &mut [u64],
) -> Result<u64, Refused>
    requires { ListsLent links.recordings start marks.old workspace.old × (links.symbols ≡ rows.lists)
        × (is_table links.recordings links.symbols links.table.now ≡ true) }
    ensures { (J : Job) → WellFormed J → JobIn J rows.entry
        → outcome (value_reply result) marks.new workspace.new
        ≡ lists_left links.entry.recordings marks.old workspace.old
        (marked_lists links.entry.recordings links.entry.table.now start (find J)) }
{
    let mut next: [u16; 4096] = [0; 4096];
    let mut flags: [u8; 256] = [0; 256];
    let told = find_rows(rows, 64, 256, &mut next, &mut flags);
    finding_lists(told, &next, &flags, links, start, marks, workspace)
}

// The job of the tables, with ROOM numbers for where the links of each recording begin.
fn lists_within<const ROOM: usize>(
    rows: JobRows<'_>,
    recordings: u64,
    table: &[u16],
    start: u64,
    marks: &mut [u8],
    workspace: &mut [u64],
) -> Result<u64, Refused>
    requires { ListsSized recordings marks.old workspace.old × (recordings ≤ ROOM) × (ROOM ≤ 4096) }
    ensures { (J : Job) → WellFormed J → JobIn J rows.entry
        → outcome (value_reply result) marks.new workspace.new
        ≡ lists_left recordings marks.old workspace.old (lists_job J recordings table.now start) }
{
    let mut begins: [u16; ROOM] = [0; ROOM];
    if !index_table(table, recordings, rows.lists, &mut begins) {
        return Err(Refused::from(Refusal::BadTable));
    }
    if recordings <= start {
        return Err(Refused::from(Refusal::BadStart));
    }
    let links = Indexed {
        symbols: rows.lists,
        recordings,
        table,
        begins: &begins,
    };
    rewriting_lists(rows, links, start, marks, workspace)
}

// The job of the rows. To zero room for many recordings takes longer than to search a table of few.
fn job_lists(
    rows: JobRows<'_>,
    recordings: u64,
    table: &[u16],
    start: u64,
    marks: &mut [u8],
    workspace: &mut [u64],
) -> Result<u64, Refused>
    requires { ListsSized recordings marks.old workspace.old }
    ensures { (J : Job) → WellFormed J → JobIn J rows.entry
        → outcome (value_reply result) marks.new workspace.new
        ≡ lists_left recordings marks.old workspace.old (lists_job J recordings table.now start) }
{
    if recordings <= 256 {
        lists_within::<256>(rows, recordings, table, start, marks, workspace)
    } else {
        lists_within::<4096>(rows, recordings, table, start, marks, workspace)
    }
}

// The job of a text, read into tables of so many words.
fn lists_in<const FOLLOW: usize, const ENTER: usize>(
    text: &[u8],
    recordings: u64,
    table: &[u16],
    start: u64,
    marks: &mut [u8],
    workspace: &mut [u64],
) -> Result<u64, Refused>
    requires { HasRows (asked_rows text.now) (replicate FOLLOW 0) (replicate ENTER 0) × (FOLLOW ≤ 1088) × (ENTER ≤ 544)
        × ListsSized recordings marks.old workspace.old }
    ensures { outcome (value_reply result) marks.new workspace.new
        ≡ read_lists (read text.now) recordings table.now start marks.old workspace.old }
{
    let mut names = [Span::EMPTY; 48];
    let mut follow: [u64; FOLLOW] = [0; FOLLOW];
    let mut enter: [u64; ENTER] = [0; ENTER];
    let mut sizes = [0; 17];
    let mut accepting = [0; 17];
    let job = load_rows(
        text,
        &mut names,
        &mut follow,
        &mut enter,
        &mut sizes,
        &mut accepting,
    )?;
    let rows = JobRows {
        labels: job.labels,
        lists: job.lists,
        follow: &follow,
        enter: &enter,
        sizes: &sizes,
        accepting: &accepting,
    };
    job_lists(rows, recordings, table, start, marks, workspace)
}

// Answer from lists (document 01): the number of recordings that are marked, or the refusal with its line. To zero tables for 16 lists takes
// longer than to answer a small job, so that a text of few lists has smaller ones.
pub fn answer_from_lists(
    text: &[u8],
    recordings: u64,
    table: &[u16],
    start: u64,
    marks: &mut [u8],
    workspace: &mut [u64],
) -> Result<u64, Refused>
    ensures { outcome (lists_reply result) marks.new workspace.new
        ≡ lists_answer text.now recordings table.now start marks.old workspace.old }
{
    if recordings == 0 {
        return Err(Refused::from(Refusal::BadRecordings));
    }
    if 4096 < recordings {
        return Err(Refused::from(Refusal::BadRecordings));
    }
    if (marks.len() as u64) < recordings {
        return Err(Refused::from(Refusal::BufferTooShort));
    }
    if (workspace.len() as u64) < 4 * recordings {
        return Err(Refused::from(Refusal::BufferTooShort));
    }
    if lists_at_most(text) <= 4 {
        lists_in::<384, 192>(text, recordings, table, start, marks, workspace)
    } else {
        lists_in::<1088, 544>(text, recordings, table, start, marks, workspace)
    }
}
