// Find (document 01) at the boundary. The first word goes to a lent word, whose named part is 256 bytes.
ghost use Rattle.std.specs.Prelude.{◌≤◌, ◌≡◌, length};
ghost use Rattle.finding.specs.Outcome.{find_reply, first_told};
ghost use Rattle.server.specs.Packed.{word_number, find_number};
ghost use Rattle.server.specs.FindLeft.{writes, letters, word_left, left, find_left};
ghost use Rattle.server.specs.FindLeftLaws.{SmallAnswer, ShortWord};

use crate::packed::{answered, refused};
use finding::answer::Found;
use finding::first::FirstWord;
use finding::operation::find;
use reading::Refused;
use syntax::Refusal;

// One more than the first word's length; 0 where no word is accepted.
fn word_number(first: Option<FirstWord>) -> u64
    requires { ShortWord first }
    ensures { result ≡ word_number first }
{
    first.map_or(0, |word| word.length + 1)
}

// The answer in one number.
fn find_number(told: Result<Found, Refused>) -> u64
    requires { SmallAnswer told }
    ensures { result ≡ find_number (find_reply told) (first_told told) }
{
    match told {
        Ok(found) => {
            let word = word_number(found.first);
            answered(found.standings + 256 * found.states + 1048576 * word)
        }
        Err(told) => refused(told),
    }
}

// Whether the lent word is written: where Find answers, and with the refusals that zero what is lent.
fn writes_word(told: Result<Found, Refused>) -> bool
    ensures { result ≡ writes (find_reply told).number }
{
    match told {
        Ok(_) => true,
        Err(told) => matches!(told.refusal.number(), 9 | 10),
    }
}

// The first word's list numbers and zeros behind them; zeros alone where there is none.
fn letters(told: Result<Found, Refused>) -> [u8; 256]
    ensures { result ≡ letters (first_told told) }
{
    match told {
        Ok(found) => match found.first {
            Some(first) => first.word,
            None => [0; 256],
        },
        Err(_) => [0; 256],
    }
}

// These go to the lent word's named part, where it is written.
fn put_word(told: Result<Found, Refused>, word: &mut [u8])
    requires { 256 ≤ length word.old }
    ensures { word.new ≡ word_left (find_reply told) (first_told told) word.old }
{
    if writes_word(told) {
        word[..256].copy_from_slice(&letters(told));
    }
}

#[unsafe(no_mangle)]
pub extern "C" fn cezhappu_find(
    job: &[u8],
    table: &mut [u16],
    flags: &mut [u8],
    word: &mut [u8],
) -> u64
    ensures { left result table.new flags.new word.new
        ≡ find_left job.now table.old flags.old word.old }
{
    if word.len() < 256 {
        return refused(Refused::from(Refusal::BufferTooShort));
    }
    let told = find(job, table, flags);
    put_word(told, word);
    find_number(told)
}
