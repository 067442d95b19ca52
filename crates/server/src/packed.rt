// A reply in one number: what is refused stands below bit 32, the values of an answer from there on.
ghost use Rattle.std.specs.Prelude.{◌≤◌, ◌<◌, [], ◌≡◌};
ghost use Rattle.syntax.specs.Reply.{given, refusing};
ghost use Rattle.reading.specs.Answering.{value_reply};
ghost use Rattle.server.specs.Packed.{packed, one_number};
ghost use Rattle.server.specs.Small.{SmallReply};

use reading::Refused;

// An answer's values, joined at their bits.
pub fn answered(values: u64) -> u64
    requires { values < 4294967296 }
    ensures { result ≡ packed (given []) values }
{
    4294967296 * values
}

// A refusal and its line; no line is over one more than the most bytes of a text.
pub fn refused(told: Refused) -> u64
    requires { told.line ≤ 8193 }
    ensures { result ≡ packed (refusing told.refusal told.line) 0 }
{
    told.refusal.number() + 256 * told.line
}

// An answer of one value, or a refusal.
pub fn one(answer: Result<u64, Refused>) -> u64
    requires { SmallReply (value_reply answer) }
    ensures { result ≡ one_number (value_reply answer) }
{
    match answer {
        Ok(value) => answered(value),
        Err(told) => refused(told),
    }
}
