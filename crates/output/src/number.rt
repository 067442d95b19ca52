// Numbers put into a lent buffer in base ten.
ghost use Rattle.output.specs.Decimal.{decimal};
ghost use Rattle.output.specs.Writer.{Puts};

use crate::writer::Writer;

impl Writer<'_> {
    // The digits before the last one are those of a tenth of the number.
    pub fn put_number(&mut self, n: u64)
        ensures { Puts self.old (decimal n) self.new }
    {
        if 10 <= n {
            self.put_number(n / 10);
        }
        self.put(48 + (n % 10) as u8);
    }
}
