// Answer from links: the chosen expression of a job, over a table of links.
ghost use Rattle.std.specs.Prelude.{◌≡◌, ◌≤◌, true, replicate};
ghost use Rattle.theory.specs.Job.{Job};
ghost use Rattle.reading.specs.Answering.{value_reply};
ghost use Rattle.reading.specs.Read.{read};
ghost use Rattle.reading.specs.RowRoom.{asked_rows, HasRows};
ghost use Rattle.answering.specs.Table.{is_table};
ghost use Rattle.answering.specs.AnswerJob.{links_job};
ghost use Rattle.answering.specs.LinksCore.{Lent};
ghost use Rattle.answering.specs.LinksOperation.{outcome, links_reply, left, read_links, links_answer, Sized, ExpressionTold};
ghost use Rattle.answering.specs.JobTables.{JobIn};

use super::indexed::Indexed;
use super::links_core::mark_links;
use super::table::index_table;
use finding::rows::JobRows;
use reading::{Refused, lists_at_most, load_rows};
use syntax::{Refusal, Span};

// The expression number x of the rows.
fn expression_links(
    rows: JobRows<'_>,
    x: usize,
    links: Indexed<'_>,
    start: u64,
    marks: &mut [u8],
    workspace: &mut [u64],
) -> Result<u64, Refused>
    requires { (x ≤ rows.lists) × (links.symbols ≤ 32) × (is_table links.recordings links.symbols links.table.now ≡ true)
        × Lent links.recordings start marks.old workspace.old }
    ensures { ExpressionTold rows.entry.follow.now rows.entry.enter.now rows.entry.sizes.now rows.entry.accepting.now x
        links.entry.symbols links.entry.table.now links.entry.recordings start marks.old workspace.old
        (outcome (value_reply result) marks.new workspace.new) }
{
    let from = 64 * x;
    let to = from + rows.sizes[x] as usize + 1;
    let first = 32 * x;
    let end = first + 32;
    mark_links(
        &rows.follow[from..to],
        &rows.enter[first..end],
        rows.accepting[x],
        links,
        start,
        marks,
        workspace,
    )
    .ok_or(Refused::from(Refusal::TooManyStandings))
}

// The job of the tables, with ROOM numbers for where the links of each recording begin.
fn links_within<const ROOM: usize>(
    rows: JobRows<'_>,
    recordings: u64,
    chosen: u64,
    table: &[u16],
    start: u64,
    marks: &mut [u8],
    workspace: &mut [u64],
) -> Result<u64, Refused>
    requires { Sized recordings marks.old workspace.old × (recordings ≤ ROOM) × (ROOM ≤ 4096) }
    ensures { (J : Job) → JobIn J rows.entry
        → outcome (value_reply result) marks.new workspace.new
        ≡ left recordings marks.old workspace.old (links_job J recordings chosen table.now start) }
{
    if rows.lists < chosen {
        return Err(Refused::from(Refusal::NoExpression));
    }
    let mut begins: [u16; ROOM] = [0; ROOM];
    if !index_table(table, recordings, rows.labels, &mut begins) {
        return Err(Refused::from(Refusal::BadTable));
    }
    if recordings <= start {
        return Err(Refused::from(Refusal::BadStart));
    }
    let links = Indexed {
        symbols: rows.labels,
        recordings,
        table,
        begins: &begins,
    };
    expression_links(rows, chosen as usize, links, start, marks, workspace)
}

// The job of the rows. To zero room for many recordings takes longer than to search a table of few.
fn job_links(
    rows: JobRows<'_>,
    recordings: u64,
    chosen: u64,
    table: &[u16],
    start: u64,
    marks: &mut [u8],
    workspace: &mut [u64],
) -> Result<u64, Refused>
    requires { Sized recordings marks.old workspace.old }
    ensures { (J : Job) → JobIn J rows.entry
        → outcome (value_reply result) marks.new workspace.new
        ≡ left recordings marks.old workspace.old (links_job J recordings chosen table.now start) }
{
    if recordings <= 256 {
        links_within::<256>(rows, recordings, chosen, table, start, marks, workspace)
    } else {
        links_within::<4096>(rows, recordings, chosen, table, start, marks, workspace)
    }
}

// The job of a text, read into tables of so many words.
fn links_in<const FOLLOW: usize, const ENTER: usize>(
    text: &[u8],
    recordings: u64,
    chosen: u64,
    table: &[u16],
    start: u64,
    marks: &mut [u8],
    workspace: &mut [u64],
) -> Result<u64, Refused>
    requires { HasRows (asked_rows text.now) (replicate FOLLOW 0) (replicate ENTER 0) × (FOLLOW ≤ 1088) × (ENTER ≤ 544)
        × Sized recordings marks.old workspace.old }
    ensures { outcome (value_reply result) marks.new workspace.new
        ≡ read_links (read text.now) recordings chosen table.now start marks.old workspace.old }
{
    let mut names = [Span::EMPTY; 48];
    let mut follow: [u64; FOLLOW] = [0; FOLLOW];
    let mut enter: [u64; ENTER] = [0; ENTER];
    let mut sizes = [0; 17];
    let mut accepting = [0; 17];
    let job = load_rows(
        text,
        &mut names,
        &mut follow,
        &mut enter,
        &mut sizes,
        &mut accepting,
    )?;
    let rows = JobRows {
        labels: job.labels,
        lists: job.lists,
        follow: &follow,
        enter: &enter,
        sizes: &sizes,
        accepting: &accepting,
    };
    job_links(rows, recordings, chosen, table, start, marks, workspace)
}

// Answer from links (document 01): the number of recordings that are marked, or the refusal with its line. To zero tables for 16 lists takes
// longer than to answer a small job, so that a text of few lists has smaller ones.
pub fn answer_from_links(
    text: &[u8],
    recordings: u64,
    chosen: u64,
    table: &[u16],
    start: u64,
    marks: &mut [u8],
    workspace: &mut [u64],
) -> Result<u64, Refused>
    ensures { outcome (links_reply result) marks.new workspace.new
        ≡ links_answer text.now recordings chosen table.now start marks.old workspace.old }
{
    if recordings == 0 {
        return Err(Refused::from(Refusal::BadRecordings));
    }
    if 4096 < recordings {
        return Err(Refused::from(Refusal::BadRecordings));
    }
    if (marks.len() as u64) < recordings {
        return Err(Refused::from(Refusal::BufferTooShort));
    }
    if (workspace.len() as u64) < recordings {
        return Err(Refused::from(Refusal::BufferTooShort));
    }
    if lists_at_most(text) <= 4 {
        links_in::<384, 192>(text, recordings, chosen, table, start, marks, workspace)
    } else {
        links_in::<1088, 544>(text, recordings, chosen, table, start, marks, workspace)
    }
}
