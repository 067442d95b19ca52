// The table and the flags of a rewriting, entry by entry.
ghost use Rattle.std.specs.Prelude.{◌≡◌, ◌+◌, ◌*◌, slice_index};
ghost use Rattle.finding.specs.Find.{row_width};

// The next state of a state for a list.
pub fn next_state(table: &[u16], state: u16, list: u8) -> u16
    ensures { result ≡ slice_index table.now (row_width * state + list) }
{
    let at = 16 * usize::from(state) + usize::from(list);
    table.get(at).copied().unwrap_or(0)
}

pub fn flag(flags: &[u8], state: u16) -> u8
    ensures { result ≡ slice_index flags.now state }
{
    flags.get(usize::from(state)).copied().unwrap_or(0)
}
