// What reading a job text tells.
ghost use Rattle.std.specs.Prelude.{◌≡◌};
ghost use Rattle.reading.specs.Answering.{unlined};

use syntax::Refusal;

// How many labels and lists a job has.
#[derive(Clone, Copy, Debug, PartialEq, Eq)]
pub struct Job {
    pub labels: u64,
    pub lists: u64,
}

// A refusal and its line, 0 where it is not met in reading the text.
#[derive(Clone, Copy, Debug, PartialEq, Eq)]
pub struct Refused {
    pub refusal: Refusal,
    pub line: u64,
}

impl From<Refusal> for Refused {
    ghost from_gives = { λ refusal e. e ≡ unlined refusal };

    fn from(refusal: Refusal) -> Refused {
        Refused { refusal, line: 0 }
    }
}
