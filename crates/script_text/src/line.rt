//! A count in a line that is put together.

ghost use Rattle.std.specs.Prelude.{◌≡◌, ◌+◌, ◌++◌, ◌≤◌, decimal};
ghost use Rattle.arrayvec.specs.ArrayVec.{array_vec_len};

use itoa::Buffer;
use report_text::{Line, put};

/// Adds a count in decimal digits, of which there are at most 20.
pub(crate) fn put_count(line: &mut Line, count: u64)
    requires { array_vec_len line.old + 20 ≤ 72 }
    ensures text { line.new.items ≡ line.old.items ++ decimal count }
    ensures len { array_vec_len line.new ≤ array_vec_len line.old + 20 }
{
    let mut buffer = Buffer::new();
    put(line, buffer.format(count).as_bytes());
}
