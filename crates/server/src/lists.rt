// Answer from lists (document 01) at the boundary.
ghost use Rattle.std.specs.Prelude.{◌≡◌};
ghost use Rattle.server.specs.AnswersLeft.{left, lists_left};

use crate::packed::one;
use answering::answer_from_lists;

#[unsafe(no_mangle)]
pub extern "C" fn cezhappu_answer_from_lists(
    job: &[u8],
    recordings: u64,
    lists: &[u16],
    start: u64,
    marks: &mut [u8],
    workspace: &mut [u64],
) -> u64
    ensures { left result marks.new workspace.new
        ≡ lists_left job.now recordings lists.now start marks.old workspace.old }
{
    one(answer_from_lists(job, recordings, lists, start, marks, workspace))
}
