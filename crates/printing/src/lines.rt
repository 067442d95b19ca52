// Lines of a word and a number, and refusals.
ghost use Rattle.output.specs.Writer.{Puts};
ghost use Rattle.printing.specs.Lines.{count_line, in_line, refusal_line};

use output::Writer;
use reading::Refused;

pub fn put_count(w: &mut Writer<'_>, word: &[u8], n: u64)
    ensures { Puts w.old (count_line word.now n) w.new }
{
    w.put_part(word);
    w.put_number(n);
    w.put(b'\n');
}

// Where the refusal is; line 0 is none.
fn put_place(w: &mut Writer<'_>, line: u64)
    ensures { Puts w.old (in_line line) w.new }
{
    if 0 < line {
        w.put_part(b" line ");
        w.put_number(line);
    }
}

pub fn put_refusal(w: &mut Writer<'_>, refused: Refused)
    ensures { Puts w.old (refusal_line refused.refusal refused.line) w.new }
{
    w.put_part(b"refused ");
    w.put_number(refused.refusal.number());
    put_place(w, refused.line);
    w.put(b'\n');
}
