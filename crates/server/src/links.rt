// Answer from links (document 01) at the boundary.
ghost use Rattle.std.specs.Prelude.{◌≡◌};
ghost use Rattle.server.specs.AnswersLeft.{left, links_left};

use crate::packed::one;
use answering::answer_from_links;

#[unsafe(no_mangle)]
pub extern "C" fn cezhappu_answer_from_links(
    job: &[u8],
    recordings: u64,
    chosen: u64,
    links: &[u16],
    start: u64,
    marks: &mut [u8],
    workspace: &mut [u64],
) -> u64
    ensures { left result marks.new workspace.new
        ≡ links_left job.now recordings chosen links.now start marks.old workspace.old }
{
    one(answer_from_links(job, recordings, chosen, links, start, marks, workspace))
}
