// The lent area before the body of a text is read: all of it cleared, the declared names and procedures behind the tree.
ghost use Rattle.std.specs.Prelude.{◌≤◌, length};
ghost use Rattle.source.specs.Area.{Prepared};

use decls::Read;

// The area as the body's reader wants it, each procedure with the activities that it can have.
pub fn prepare(s: &[u8], work: &mut [u8]) -> Read
    requires { (length s.now ≤ 8192) × (32768 ≤ length work.old) }
    ensures { Prepared s.now work.old work.new result }
{
    work[..32768].fill(0);
    let d = decls::declared(s, &mut work[16384..]);
    wides::fill(s, work, d.procedures);
    d
}
