// Read (document 01) at the boundary.
ghost use Rattle.std.specs.Prelude.{◌≡◌};
ghost use Rattle.reading.specs.Read.{read};
ghost use Rattle.reading.specs.Answering.{reply_of};
ghost use Rattle.server.specs.Packed.{read_number};

use crate::packed::{answered, refused};

#[unsafe(no_mangle)]
pub extern "C" fn cezhappu_read(job: &[u8]) -> u64
    ensures { result ≡ read_number (reply_of (read job.now)) }
{
    match reading::read(job) {
        Ok(counts) => answered(counts.labels + 256 * counts.lists),
        Err(told) => refused(told),
    }
}
