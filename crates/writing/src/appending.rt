// Writers that may have no room: each says how many bytes there are with its own, and writes these only if they fit.
ghost use Rattle.std.specs.Prelude.{◌∷◌, [], ◌+◌, length};
ghost use Rattle.std.proofs.Common.{Fits};
ghost use Rattle.std.specs.Int.{w64};
ghost use Rattle.writing.specs.Appending.{Appends, Within};

use crate::copy;

// Writes all of `source` behind the first `written` bytes, if there is room, and says how many bytes there are with it.
pub fn append(source: &[u8], written: usize, out: &mut [u8]) -> usize
    requires { Fits w64 (written + length source.now) }
    ensures { Appends source.now written out.old out.new result }
{
    let end = written + source.len();
    if end <= out.len() {
        copy(source, &mut out[written..]);
    }
    end
}

// The same for one kind byte.
pub fn append_kind(kind: u8, written: usize, out: &mut [u8]) -> usize
    requires { Fits w64 (written + 1) }
    ensures { Appends (kind ∷ []) written out.old out.new result }
{
    if written < out.len() {
        out[written] = kind;
    }
    written + 1
}

// Where the part behind `written` bytes starts: at the end if they had no room.
pub fn within(written: usize, room: usize) -> usize
    ensures { Within written room result }
{
    if written < room {
        return written;
    }
    room
}
