// The path of a pair that was found: the pairs before it are followed back to the first.
ghost use Rattle.std.specs.Prelude.{◌≡◌, ◌+◌, ◌*◌, slice_index};
ghost use Rattle.verdict.specs.PathTold.{DepthTold, PathWritten};

// How the pair number i was reached; 0 where there is no such pair.
fn link(workspace: &[u64], i: usize) -> u64
    ensures { result ≡ slice_index workspace.now (18 * i + 17) }
{
    if i < workspace.len() / 18 {
        workspace[18 * i + 17]
    } else {
        0
    }
}

// The length of the path of the pair number i.
pub fn depth(workspace: &[u64], i: usize) -> usize
    ensures { DepthTold workspace.now i result }
{
    let mut j = i;
    let mut labels = 0;
    // No `for`: the links back to the first pair are followed.
    while j != 0 {
        let before = (link(workspace, j) % 8192) as usize;
        if before >= j {
            return labels;
        }
        j = before;
        labels += 1;
    }
    labels
}

// Writes the path of the pair number i, which has so many labels.
pub fn write_path(workspace: &[u64], i: usize, labels: usize, path: &mut [u8])
    ensures { PathWritten workspace.now i labels path.old path.new }
{
    if path.len() < labels {
        return;
    }
    let mut j = i;
    for k in (0..labels).rev() {
        let reached = link(workspace, j);
        path[k] = (reached / 8192 % 64) as u8;
        j = (reached % 8192) as usize;
    }
}
