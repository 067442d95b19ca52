// Keep (document 01) at the boundary.
ghost use Rattle.std.specs.Prelude.{◌≡◌};
ghost use Rattle.server.specs.KeepLeft.{left, keep_left};

use crate::packed::one;

#[unsafe(no_mangle)]
pub extern "C" fn cezhappu_keep(job: &[u8], out: &mut [u8]) -> u64
    ensures { left result out.new ≡ keep_left job.now out.old }
{
    one(keeping::keep(job, out))
}
