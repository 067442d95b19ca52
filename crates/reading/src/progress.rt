// What the lines read so far give, in numbers.
#[derive(Clone, Copy)]
pub struct Progress {
    pub labels: u64,
    pub lists: u64,
    // Whether the query's line was read.
    pub query: bool,
}

impl Progress {
    // Before any line is read.
    pub const BEGINNING: Progress = Progress {
        labels: 0,
        lists: 0,
        query: false,
    };
}
