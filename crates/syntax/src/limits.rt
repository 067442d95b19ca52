// The limits of an expression (document 01): how deep its parentheses nest.
ghost use Rattle.std.specs.Prelude.{max, ◌≡◌};
ghost use Rattle.syntax.specs.Limits.{nesting};

// How deep a byte stands, by the parentheses open before it and behind it: a parenthesis stands in what it opens or closes, so that
// `()` counts.
fn depth(before: u64, behind: u64) -> u64
    ensures { result ≡ max before behind }
{
    before.max(behind)
}

// A `)` that closes nothing is passed over.
pub fn nesting(s: &[u8]) -> u64
    ensures { result ≡ nesting 0 s.now }
{
    let mut open: u64 = 0;
    let mut most: u64 = 0;
    for b in s {
        let before = open;
        match *b {
            b'(' => open += 1,
            b')' => open = open.saturating_sub(1),
            _ => {}
        }
        most = most.max(depth(before, open));
    }
    most
}
