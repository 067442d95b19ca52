// A job text read into lent tables, line by line.
ghost use Rattle.std.specs.Prelude.{◌≤◌, ◌≡◌, length};
ghost use Rattle.reading.specs.Read.{read};
ghost use Rattle.reading.specs.Answering.{read_reply, reply_of};
ghost use Rattle.reading.specs.Lent.{held, SameMemory, Whole};
ghost use Rattle.reading.specs.Loading.{tables, Loaded};
ghost use Rattle.reading.specs.ListStarts.{list_starts};
ghost use Rattle.reading.specs.RowRoom.{asked_rows, AtMost, HasRows, Roomy};

use super::answer::{Job, Refused};
use super::progress::Progress;
use super::scan::find_byte;
use super::tables::Tables;
use syntax::{Refusal, Span};

const MOST_TEXT: usize = 8192;

// The lines of a text that is short enough.
fn lines(text: &[u8], tables: &mut Tables<'_>) -> Result<Job, Refused>
    requires { (length text.now ≤ 8192) × HasRows (asked_rows text.now) tables.old.follow.now tables.old.enter.now
        × Whole tables.old }
    ensures same { SameMemory tables.old tables.new }
    ensures loaded { Loaded text.now result (held tables.new) }
    ensures roomy { Roomy result tables.new.follow.now tables.new.enter.now }
{
    let mut p = Progress::BEGINNING;
    let mut n: u64 = 1;
    let mut at: usize = 0;
    // No `for`: the walk goes on by whole lines.
    while at < text.len() {
        let size = find_byte(&text[at..], b'\n').ok_or(Refused {
            refusal: Refusal::BadLine,
            line: n,
        })?;
        let span = Span {
            start: at as u64,
            size: size as u64,
        };
        p = tables
            .line(p, text, span)
            .map_err(|refusal| Refused { refusal, line: n })?;
        at += size + 1;
        n += 1;
    }
    if p.query {
        Ok(Job {
            labels: p.labels,
            lists: p.lists,
        })
    } else {
        Err(Refused {
            refusal: Refusal::BadLine,
            line: n,
        })
    }
}

// How often the bytes `li` stand in a short text.
fn list_starts(text: &[u8]) -> u16
    requires { length text.now ≤ 1024 }
    ensures { result ≡ list_starts text.now }
{
    let mut n: u16 = 0;
    for i in 1..text.len() {
        if (text[i - 1] == b'l') & (text[i] == b'i') {
            n += 1;
        }
    }
    n
}

// No fewer than the lists that a text's job has; a long text is not looked through, and may have as many as any. Tables with two rows more
// hold the job.
pub fn lists_at_most(text: &[u8]) -> u16
    ensures { AtMost result text.now }
{
    if 1024 < text.len() {
        return 16;
    }
    list_starts(text)
}

// Reads a job text into tables that have rows for it, which 17 are in any case. Where the text is refused, what the tables hold means
// nothing.
pub fn load_rows(
    text: &[u8],
    names: &mut [Span; 48],
    follow: &mut [u64],
    enter: &mut [u64],
    sizes: &mut [u64; 17],
    accepting: &mut [u64; 17],
) -> Result<Job, Refused>
    requires { HasRows (asked_rows text.now) follow.old enter.old }
    ensures loaded { Loaded text.now result
        (tables names.new follow.new enter.new sizes.new accepting.new) }
    ensures roomy { Roomy result follow.new enter.new }
{
    if MOST_TEXT < text.len() {
        return Err(Refused::from(Refusal::TextTooLong));
    }
    let mut tables = Tables {
        names,
        follow,
        enter,
        sizes,
        accepting,
    };
    lines(text, &mut tables)
}

// Reads a job text into the tables that the layers above work on.
pub fn load(
    text: &[u8],
    names: &mut [Span; 48],
    follow: &mut [u64; 1088],
    enter: &mut [u64; 544],
    sizes: &mut [u64; 17],
    accepting: &mut [u64; 17],
) -> Result<Job, Refused>
    ensures { Loaded text.now result
        (tables names.new follow.new enter.new sizes.new accepting.new) }
{
    load_rows(text, names, follow, enter, sizes, accepting)
}

// Read (document 01): how many labels and lists the job has, or the refusal with its line.
pub fn read(text: &[u8]) -> Result<Job, Refused>
    ensures { read_reply result ≡ reply_of (read text.now) }
{
    let mut names = [Span::EMPTY; 48];
    let mut follow = [0; 1088];
    let mut enter = [0; 544];
    let mut sizes = [0; 17];
    let mut accepting = [0; 17];
    load(
        text,
        &mut names,
        &mut follow,
        &mut enter,
        &mut sizes,
        &mut accepting,
    )
}
