// How steps go.
ghost use Rattle.std.specs.Prelude.{◌≡◌};
ghost use Rattle.verdict.specs.Ways.{columns_of, SomeWay};

// How steps over a label go.
#[derive(Clone, Copy, Debug, PartialEq, Eq)]
pub enum Way {
    // Place by place, of sets as they stand.
    Plain,
    // By columns, so many, or by ranges where there are more than 64 states, of sets that stand turned: each offset has its own column.
    Columns(u64),
    // By classes, so many, of sets that stand turned: the offsets of a class share a column.
    Classes(u64),
    // By rows of so many places, of sets as they stand.
    Rows(u64),
}

impl Way {
    // How many columns a cover set has; none where it does not stand turned.
    pub fn columns(self) -> u64
        ensures { result ≡ columns_of self }
    {
        match self {
            Way::Columns(w) => w,
            Way::Classes(k) => k,
            _ => 0,
        }
    }
}

// How steps go, and what is prepared for them.
#[derive(Clone, Copy)]
pub struct Ways<'a> {
    pub way: Way,
    // The places that lead to each, or the classes, or what rows need.
    pub before: &'a [u64],
    // The states that are reached where a path of a list ends, or those that are reached from each state.
    pub ended: &'a [u64],
    // The class of each offset, where steps go by classes.
    pub classes: &'a [u8],
    pub ghost some: { SomeWay way },
}
