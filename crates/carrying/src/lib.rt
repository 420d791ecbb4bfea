// The rest of a chunk is carried to the front of the buffer, before the next chunk is read behind it.
#![tactic(auto)]

ghost use Rattle.std.specs.Prelude.{◌≤◌, length};
ghost use Rattle.carrying.specs.Carried.{Carried};

use chunks::ENOUGH;

// Moves the bytes from `from` up to `to`, as many as are enough of a line, to the front, and answers how many.
pub fn carry(buf: &mut [u8], from: usize, to: usize) -> usize
    requires { (from ≤ to) × (to ≤ length buf.old) }
    ensures { Carried buf.old from to buf.new result }
{
    let size = ENOUGH.min(to - from);
    buf.copy_within(from..from + size, 0);
    size
}
