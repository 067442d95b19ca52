// Verdict (document 01): whether the greatest rewriting of a job's query loses a path, from the job text.
ghost use Rattle.std.specs.Prelude.{◌≡◌, ◌≤◌, replicate};
ghost use Rattle.theory.specs.Job.{Job};
ghost use Rattle.reading.specs.Read.{read};
ghost use Rattle.reading.specs.RowRoom.{asked_rows, HasRows};
ghost use Rattle.verdict.specs.VerdictOperation.{left, left_by_job, left_by_reading, outcome};
ghost use Rattle.verdict.specs.VerdictOperation.{Sized, JobGiven, SomeJob, FoundTold, FindTold, AnsweredTold};

use crate::tables::Tables;
use crate::verdict::{Verdict, verdict_of};
use finding::clear::clear;
use finding::job_rows::find_rows;
use finding::rows::JobRows;
use reading::{Refused, lists_at_most, load_rows};
use syntax::{Refusal, Span};

// The verdict on so many states, from the table and the flags that Find left.
fn found_verdict(
    job: JobRows<'_>,
    states: u64,
    table: &[u16],
    flags: &[u8],
    allowance: u64,
    path: &mut [u8],
    workspace: &mut [u64],
) -> Result<Verdict, Refusal>
    requires { (states ≤ 256) × Sized allowance table.now flags.now path.old workspace.old }
    ensures { let J = job.entry in FoundTold J.follow.now J.enter.now J.sizes.now J.accepting.now J.labels J.lists states
        table.now flags.now allowance path.old workspace.old result
        path.new workspace.new }
{
    let n = states as usize;
    let end = 16 * n;
    let sizes = job.sizes;
    let accepting = job.accepting;
    let tables = Tables {
        states,
        table: &table[..end],
        follow: job.follow,
        enter: job.enter,
        sizes,
        accepting,
        lists: job.lists as usize,
        labels: job.labels as usize,
    };
    verdict_of(tables, &flags[..n], 1024, allowance, workspace, path)
}

// Find, then the verdict on what it finds.
fn find_verdict(
    job: JobRows<'_>,
    allowance: u64,
    table: &mut [u16],
    flags: &mut [u8],
    path: &mut [u8],
    workspace: &mut [u64],
) -> Result<Verdict, Refusal>
    requires { let J = job in SomeJob J.follow.now J.enter.now J.sizes.now J.accepting.now J.labels J.lists
        × Sized allowance table.old flags.old path.old workspace.old }
    ensures { let J = job.entry in FindTold J.follow.now J.enter.now J.sizes.now J.accepting.now J.labels J.lists
        allowance table.old flags.old path.old workspace.old result
        table.new flags.new path.new workspace.new }
{
    match find_rows(job, 64, 256, table, flags) {
        Ok(found) => found_verdict(job, found.states, table, flags, allowance, path, workspace),
        Err(refused) => Err(refused.refusal),
    }
}

// What is told of a verdict; where it is a refusal, the table and the flags are cleared.
fn answer(
    told: Result<Verdict, Refusal>,
    table: &mut [u16],
    flags: &mut [u8],
) -> Result<Verdict, Refused>
    ensures { AnsweredTold told table.old flags.old result table.new flags.new }
{
    match told {
        Ok(verdict) => Ok(verdict),
        Err(refusal) => {
            clear(table, 4096);
            clear(flags, 256);
            Err(Refused::from(refusal))
        }
    }
}

// The verdict on the job of the tables. The missed path has zeros behind it, and the workspace is left cleared.
fn job_verdict(
    job: JobRows<'_>,
    allowance: u64,
    table: &mut [u16],
    flags: &mut [u8],
    path: &mut [u8],
    workspace: &mut [u64],
) -> Result<Verdict, Refused>
    requires { let J = job in SomeJob J.follow.now J.enter.now J.sizes.now J.accepting.now J.labels J.lists
        × Sized allowance table.old flags.old path.old workspace.old }
    ensures { let K = job.entry in (J : Job) → JobGiven J K.follow.now K.enter.now K.sizes.now K.accepting.now
        K.labels K.lists → left result table.new flags.new path.new workspace.new
        ≡ left_by_job J allowance table.old flags.old path.old workspace.old }
{
    clear(path, allowance as usize);
    let told = find_verdict(job, allowance, table, flags, path, workspace);
    clear(workspace, 18 * allowance as usize);
    answer(told, table, flags)
}

// The verdict on the job of a text, read into tables of so many words, which have rows for it.
fn verdict_in<const FOLLOW: usize, const ENTER: usize>(
    text: &[u8],
    allowance: u64,
    table: &mut [u16],
    flags: &mut [u8],
    path: &mut [u8],
    workspace: &mut [u64],
) -> Result<Verdict, Refused>
    requires rows { HasRows (asked_rows text.now) (replicate FOLLOW 0) (replicate ENTER 0) }
    requires small { (FOLLOW ≤ 1088) × (ENTER ≤ 544) }
    requires lent { Sized allowance table.old flags.old path.old workspace.old }
    ensures { left result table.new flags.new path.new workspace.new
        ≡ left_by_reading (read text.now) allowance table.old flags.old path.old
        workspace.old }
{
    let mut names = [Span::EMPTY; 48];
    let mut follow = [0; FOLLOW];
    let mut enter = [0; ENTER];
    let mut sizes = [0; 17];
    let mut accepting = [0; 17];
    let job = load_rows(
        text,
        &mut names,
        &mut follow,
        &mut enter,
        &mut sizes,
        &mut accepting,
    )?;
    let rows = JobRows {
        labels: job.labels,
        lists: job.lists,
        follow: &follow,
        enter: &enter,
        sizes: &sizes,
        accepting: &accepting,
    };
    job_verdict(rows, allowance, table, flags, path, workspace)
}

// The verdict on the job of a text. A text of few lists has smaller tables, which are zeroed sooner.
fn read_verdict(
    text: &[u8],
    allowance: u64,
    table: &mut [u16],
    flags: &mut [u8],
    path: &mut [u8],
    workspace: &mut [u64],
) -> Result<Verdict, Refused>
    requires { Sized allowance table.old flags.old path.old workspace.old }
    ensures { left result table.new flags.new path.new workspace.new
        ≡ left_by_reading (read text.now) allowance table.old flags.old path.old
        workspace.old }
{
    if lists_at_most(text) <= 4 {
        verdict_in::<384, 192>(text, allowance, table, flags, path, workspace)
    } else {
        verdict_in::<1088, 544>(text, allowance, table, flags, path, workspace)
    }
}

// The table gets 4,096 numbers, the flags 256 bytes, the path as many bytes as the allowance, the workspace 18 words for each allowed pair;
// what lies beyond stays.
pub fn judge(
    text: &[u8],
    allowance: u64,
    table: &mut [u16],
    flags: &mut [u8],
    path: &mut [u8],
    workspace: &mut [u64],
) -> Result<Verdict, Refused>
    ensures { left result table.new flags.new path.new workspace.new
        ≡ outcome text.now allowance table.old flags.old path.old workspace.old }
{
    if allowance == 0 {
        return Err(Refused::from(Refusal::BadAllowance));
    }
    if 4096 < allowance {
        return Err(Refused::from(Refusal::BadAllowance));
    }
    if table.len() < 4096 {
        return Err(Refused::from(Refusal::BufferTooShort));
    }
    if flags.len() < 256 {
        return Err(Refused::from(Refusal::BufferTooShort));
    }
    if (path.len() as u64) < allowance {
        return Err(Refused::from(Refusal::BufferTooShort));
    }
    if (workspace.len() as u64) < 18 * allowance {
        return Err(Refused::from(Refusal::BufferTooShort));
    }
    read_verdict(text, allowance, table, flags, path, workspace)
}
