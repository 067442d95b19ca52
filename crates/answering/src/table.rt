// Whether lent numbers are a table of links or of lists, and where the links of each recording begin in it.
ghost use Rattle.std.specs.Prelude.{◌≡◌, ◌<◌, ◌≤◌, true};
ghost use Rattle.answering.specs.Table.{is_table};
ghost use Rattle.answering.specs.TableSteps.{triple_number};
ghost use Rattle.answering.specs.LinkBegins.{Unlisted, LinkBegins};

// The most links or lists of a table.
const MOST_LINKS: usize = 16384;

// A triple as one number: these are in the order of the triples.
fn number_of(x: u64, a: u64, y: u64) -> u64
    requires { (x < 65536) × (a < 65536) × (y < 65536) }
    ensures { result ≡ triple_number x a y }
{
    4294967296 * x + 65536 * a + y
}

// Whether the numbers are a table: each triple is in range and comes before the one behind it, whose number is `after`. They are tested from
// the last to the first, so that each takes the place of those behind it that leave the same recording: of a table, the first triple that
// leaves each recording is listed at the end, where one does. Nothing is listed before. The last triple has to come before all that leave a
// recording out of range, so that no triple leaves one.
pub(super) fn index_table(table: &[u16], recordings: u64, symbols: u64, begins: &mut [u16]) -> bool
    requires { (recordings ≤ 4096) × Unlisted recordings begins.old }
    ensures value { result ≡ is_table recordings symbols table.now }
    ensures listed { result ≡ true → LinkBegins table.now recordings begins.new }
{
    if 3 * MOST_LINKS < table.len() {
        return false;
    }
    if table.len() % 3 != 0 {
        return false;
    }
    let mut after = number_of(recordings, 0, 0);
    for at in (0..table.len() / 3).rev() {
        let x = u64::from(table[3 * at]);
        let a = u64::from(table[3 * at + 1]);
        let y = u64::from(table[3 * at + 2]);
        if recordings <= y {
            return false;
        }
        if symbols <= a {
            return false;
        }
        let number = number_of(x, a, y);
        if after <= number {
            return false;
        }
        after = number;
        begins[x as usize] = at as u16;
    }
    true
}
