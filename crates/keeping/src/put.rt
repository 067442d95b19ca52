// Numbers put into a lent buffer, high byte first.
ghost use Rattle.output.specs.Writer.{Puts};
ghost use Rattle.keeping.specs.Kept.{two_bytes};

use output::Writer;

// A number of 16 bits.
pub fn put16(w: &mut Writer<'_>, n: u16)
    ensures { Puts w.old (two_bytes n) w.new }
{
    w.put_part(&n.to_be_bytes());
}
