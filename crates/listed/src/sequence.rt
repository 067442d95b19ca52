// Expressions of a's in sequence.
ghost use Rattle.output.specs.Writer.{Puts};
ghost use Rattle.listed.specs.Texts.{repeated, sequence_of};

use output::Writer;

// The same bytes so many times.
pub fn put_repeated(w: &mut Writer<'_>, count: u64, bytes: &[u8])
    ensures { Puts w.old (repeated count bytes.now) w.new }
{
    for _ in 0..count {
        w.put_part(bytes);
    }
}

// So many a's in sequence.
pub fn put_sequence(w: &mut Writer<'_>, count: u64)
    ensures { Puts w.old (sequence_of count) w.new }
{
    if 0 < count {
        w.put_part(b"a");
        put_repeated(w, count - 1, b".a");
    }
}
