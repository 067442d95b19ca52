// The rows of a job, which the layers above work on.
ghost use Rattle.finding.specs.RowsHeld.{RowsHeld};

// What reading left of a job: how many labels and lists it has, and the tables, which hold the automata of the query, at number 0, and of
// the lists.
#[derive(Clone, Copy)]
pub struct JobRows<'a> {
    pub labels: u64,
    pub lists: u64,
    pub follow: &'a [u64],
    pub enter: &'a [u64],
    pub sizes: &'a [u64; 17],
    pub accepting: &'a [u64; 17],
    pub ghost held: { RowsHeld labels lists follow.now enter.now sizes.now accepting.now },
}
