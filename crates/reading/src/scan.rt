// Looking through a text byte by byte.
ghost use Rattle.std.specs.Prelude.{◌≡◌};
ghost use Rattle.reading.specs.Scan.{first};

// Where the first `b` is.
pub fn find_byte(s: &[u8], b: u8) -> Option<usize>
    ensures { result ≡ first b s.now }
{
    s.iter().position(|x| *x == b)
}
