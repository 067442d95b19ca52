// The tables that the verdict is lent.

// What the verdict goes by: how many states, lists and labels there are, the table of the states over the lists, and the tables that hold the
// automata of the query, at number 0, and of the lists.
#[derive(Clone, Copy)]
pub struct Tables<'a> {
    pub states: u64,
    pub table: &'a [u16],
    pub follow: &'a [u64],
    pub enter: &'a [u64],
    pub sizes: &'a [u64],
    pub accepting: &'a [u64],
    pub lists: usize,
    pub labels: usize,
}
