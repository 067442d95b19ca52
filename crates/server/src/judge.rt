// Verdict (document 01) at the boundary.
ghost use Rattle.std.specs.Prelude.{◌≡◌};
ghost use Rattle.server.specs.VerdictLeft.{left, verdict_left};

use crate::packed::{answered, refused};
use verdict::{Verdict, judge};

#[unsafe(no_mangle)]
pub extern "C" fn cezhappu_verdict(
    job: &[u8],
    allowance: u64,
    table: &mut [u16],
    flags: &mut [u8],
    path: &mut [u8],
    workspace: &mut [u64],
) -> u64
    ensures { left result table.new flags.new path.new workspace.new
        ≡ verdict_left job.now allowance table.old flags.old path.old
        workspace.old }
{
    match judge(job, allowance, table, flags, path, workspace) {
        Ok(told) => match told {
            Verdict::Complete(pairs) => answered(pairs),
            Verdict::Missed(length, pairs) => answered(pairs + 65536 * (length + 1)),
        },
        Err(told) => refused(told),
    }
}
