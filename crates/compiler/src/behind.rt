// The search and the file, over the part of the work area that lies behind the tree.
ghost use Rattle.std.specs.Prelude.{◌≡◌, ◌≤◌, ◌<◌, length, drop};
ghost use Rattle.file_law.specs.File.{file_of};
ghost use Rattle.nodes.specs.Ready.{Ready};
ghost use Rattle.search.specs.Machine.{machine_in};
ghost use Rattle.search.specs.Going.{Sized, Searched};
ghost use Rattle.files.specs.Written.{stream_from, Small, Wrote};

use nodes::Tree;
use search::Task;
use stream::sizes::Sizes;

pub fn search(tree: &Tree, work: &mut [u8], at: usize, task: Task) -> Option<usize>
    requires { Ready tree.now task.count task.left × Sized (machine_in tree.now task) task.room (drop at work.old) × (0 < task.room) × (at ≤ length work.old) }
    ensures { Searched (machine_in tree.now task) task.room (drop at work.old) result (drop at work.new) × (length work.new ≡ length work.old) }
{
    search::search(tree, &mut work[at..], task)
}

pub fn write_file(work: &[u8], at: usize, sizes: Sizes, file: &mut [u8]) -> Option<u16>
    requires { Small (drop at work.now) sizes.inputs sizes.outputs sizes.states × (at ≤ length work.now) }
    ensures { Wrote file.old (file_of (stream_from (drop at work.now) sizes.inputs sizes.outputs sizes.states)) result file.new }
{
    files::write_file(&work[at..], sizes, file)
}
