// The refusals of document 01. Its numbers are given by `number`; the three reasons under 7 are three cases.
ghost use Rattle.std.specs.Prelude.{◌≡◌};
ghost use Rattle.syntax.specs.Number.{number};

#[derive(Clone, Copy, Debug, PartialEq, Eq)]
pub enum Refusal {
    // 1: the text is over 8,192 bytes.
    TextTooLong,
    // 2: no closing byte 10, a wrong opening word, a missing space, or a line out of its place.
    BadLine,
    // 3: a bad or repeated name.
    BadName,
    // 4: a 33rd label or a 17th list.
    TooManyNames,
    // 5: an expression that is not in the grammar.
    NotInGrammar,
    // 6: an unknown label.
    UnknownLabel,
    // 7: an expression over 512 bytes.
    ExpressionTooLong,
    // 7: parentheses over 16 deep.
    TooDeep,
    // 7: over 63 label occurrences.
    TooManyOccurrences,
    // 8: a lent buffer is too short.
    BufferTooShort,
    // 9: over 64 standings.
    TooManyStandings,
    // 10: over 256 states.
    TooManyStates,
    // 11: an allowance of 0 or over 4,096.
    BadAllowance,
    // 12: over 1,024 cover places.
    TooManyPlaces,
    // 13: more pairs than the allowance.
    TooManyPairs,
    // 14: a number of recordings out of range.
    BadRecordings,
    // 15: a bad table.
    BadTable,
    // 16: a start that is no recording.
    BadStart,
    // 17: the chosen expression is absent.
    NoExpression,
}

impl Refusal {
    // The number of document 01.
    pub fn number(self) -> u64
        ensures { result ≡ number self }
    {
        match self {
            Refusal::TextTooLong => 1,
            Refusal::BadLine => 2,
            Refusal::BadName => 3,
            Refusal::TooManyNames => 4,
            Refusal::NotInGrammar => 5,
            Refusal::UnknownLabel => 6,
            Refusal::ExpressionTooLong => 7,
            Refusal::TooDeep => 7,
            Refusal::TooManyOccurrences => 7,
            Refusal::BufferTooShort => 8,
            Refusal::TooManyStandings => 9,
            Refusal::TooManyStates => 10,
            Refusal::BadAllowance => 11,
            Refusal::TooManyPlaces => 12,
            Refusal::TooManyPairs => 13,
            Refusal::BadRecordings => 14,
            Refusal::BadTable => 15,
            Refusal::BadStart => 16,
            Refusal::NoExpression => 17,
        }
    }
}
