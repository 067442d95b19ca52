// Bytes put into a lent buffer one after another, as far as it has room.
ghost use Rattle.std.specs.Prelude.{◌≡◌, [], ◌∷◌, replicate};
ghost use Rattle.output.specs.Put.{writing};
ghost use Rattle.output.specs.Writer.{written, Puts};

// A lent buffer and the place in it where the next byte goes.
#[derive(Drop)]
pub struct Writer<'a> {
    pub out: &'a mut [u8],
    pub at: usize,
}

impl<'a> Writer<'a> {
    pub fn new(out: &'a mut [u8]) -> Writer<'a>
        ensures same_reference { result.out.ghost_name ≡ out.entry.ghost_name }
        ensures starts { written result ≡ writing out.old 0 }
    {
        Writer { out, at: 0 }
    }

    pub fn put(&mut self, byte: u8)
        ensures { Puts self.old (byte ∷ []) self.new }
    {
        if self.at < self.out.len() {
            self.out[self.at] = byte;
            self.at += 1;
        }
    }

    pub fn put_part(&mut self, bytes: &[u8])
        ensures { Puts self.old bytes.now self.new }
    {
        for &byte in bytes {
            self.put(byte);
        }
    }

    pub fn put_zeros(&mut self, count: usize)
        ensures { Puts self.old (replicate count 0) self.new }
    {
        for _ in 0..count {
            self.put(0);
        }
    }
}
