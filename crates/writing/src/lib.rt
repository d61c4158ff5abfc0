// Types and slices in bytes: the code that writes them. Each writer is handed the part of the lent buffer where it has to
// write, with room that was measured before, and hands the later parts on.
#![tactic(auto)]

ghost use Rattle.std.specs.Prelude.{◌≡◌, ◌∷◌, [], ◌+◌, ◌-◌, ◌/◌, ◌%◌, ◌≤◌, length};
ghost use Rattle.std.proofs.Common.{Fits};
ghost use Rattle.std.specs.Int.{w64};
ghost use Rattle.stream.specs.Reading.{section_bytes};
ghost use Rattle.stream.specs.Buffers.{at_front};
ghost use Rattle.stream.specs.Prefixes.Kinds.{prefix_arity};
ghost use Rattle.stream.specs.Prefixes.{empty_prefix};
ghost use Rattle.stream.specs.SliceFiles.{prefix_bytes};
ghost use Rattle.reading.specs.Fronts.{front_tree};
ghost use Rattle.reading.specs.SliceReads.{prefix_width};
ghost use Rattle.writing.specs.Writing.{PrefixDue, PrefixWritten, LeafConcatDue, ConcatDue, ConcatWritten, JoinedFileDue, JoinedFileWritten, empty_kind, SilenceDue, SilenceWritten, SpentDue, SpentWritten};

use crate::numbers::put_number;
use reading::fronts::TypeFront;
use reading::prefixes::{is_unfinished, root_width, skip_prefix};
use reading::types::skip_type;

pub mod appending;
pub mod numbers;
pub mod rearranging;
pub mod slices;

// How far a writer has come: where the two trees that it goes through end, and how many bytes it has written.
#[derive(Clone, Copy)]
pub struct Moved {
    pub first: usize,
    pub second: usize,
    pub written: usize,
}

// As far as `moved`, after bytes that were written before.
fn onward(moved: Moved, before: usize) -> Moved
    requires { Fits w64 (before + moved.written) }
    ensures { result ≡ record { first = moved.first; second = moved.second; written = before + moved.written } }
{
    Moved {
        written: before + moved.written,
        ..moved
    }
}

// Writes a section's count.
#[tactic(auto, unfolding(stream::specs::Reading::number_bytes))]
pub fn put_count(count: usize, out: &mut [u8])
    requires { (count ≤ 65535) × (2 ≤ length out.old) }
    ensures { out.new ≡ at_front (count / 256 ∷ count % 256 ∷ []) out.old }
{
    put_number::<2>(count as u32, out);
}

// Copies all of `source`. By a loop, since the library's `copy_from_slice` is a call of memmove, which the archive would need from outside.
pub fn copy(source: &[u8], out: &mut [u8])
    requires { length source.now ≤ length out.old }
    ensures { out.new ≡ at_front source.now out.old }
{
    for next in 0..source.len() {
        out[next] = source[next];
    }
}

// Copies the prefix at `place`, and says how many bytes it has.
pub fn copy_prefix(slice: &[u8], place: usize, out: &mut [u8]) -> usize
    requires { PrefixDue slice.now place out.old }
    ensures { PrefixWritten slice.now place out.old out.new result }
{
    let end = skip_prefix(slice, place);
    copy(&slice[place..end], out);
    end - place
}

// The join where the first prefix is a leaf: a leaf still awaited gives way to the second prefix, one that has come stays.
fn write_leaf_concat(
    first: &[u8],
    first_place: usize,
    second: &[u8],
    second_place: usize,
    out: &mut [u8],
) -> Moved
    requires { LeafConcatDue first.now first_place second.now second_place out.old }
    ensures { ConcatWritten first.now first_place second.now second_place out.old out.new result }
{
    if is_unfinished(first[first_place]) {
        let written = copy_prefix(second, second_place, out);
        Moved {
            first: first_place + 1,
            second: second_place + written,
            written,
        }
    } else {
        let written = copy_prefix(first, first_place, out);
        Moved {
            first: first_place + written,
            second: second_place + 1,
            written,
        }
    }
}

// Writes the join of the prefix at `first_place` and the one at `second_place` of what the first leaves. No slice has a kind above 10.
pub fn write_concat(
    first: &[u8],
    first_place: usize,
    second: &[u8],
    second_place: usize,
    out: &mut [u8],
) -> Moved
    requires { ConcatDue first.now first_place second.now second_place out.old }
    ensures { ConcatWritten first.now first_place second.now second_place out.old out.new result }
{
    match first[first_place] {
        0..=4 => write_leaf_concat(first, first_place, second, second_place, out),
        5 => {
            let kind = second[second_place];
            out[0] = kind;
            let part = write_concat(
                first,
                first_place + 1,
                second,
                second_place + 1,
                &mut out[1..],
            );
            if kind == 5 {
                return onward(part, 1);
            }
            // The second prefix brings the crossing: what it has of the second part follows as it is.
            let written = 1 + part.written;
            let copied = copy_prefix(second, part.second, &mut out[written..]);
            Moved {
                first: part.first,
                second: part.second + copied,
                written: written + copied,
            }
        }
        6 => {
            out[0] = 6;
            let written = 1 + copy_prefix(first, first_place + 1, &mut out[1..]);
            let rest = write_concat(
                first,
                first_place + written,
                second,
                second_place,
                &mut out[written..],
            );
            onward(rest, written)
        }
        7 => {
            out[0] = 7;
            let part = write_concat(
                first,
                first_place + 1,
                second,
                second_place + 1,
                &mut out[1..],
            );
            let written = 1 + part.written;
            let rest = write_concat(first, part.first, second, part.second, &mut out[written..]);
            onward(rest, written)
        }
        8 => write_leaf_concat(first, first_place, second, second_place, out),
        // The mark of a choice stays, and the second prefix is one of what the part that was chosen leaves.
        9..=10 => {
            out[0] = first[first_place];
            let part = write_concat(first, first_place + 1, second, second_place, &mut out[1..]);
            onward(part, 1)
        }
        11..=255 => Moved {
            first: first_place,
            second: second_place,
            written: 0,
        },
    }
}

// Writes the file of the join of two slice files' prefixes, which has `joined` bytes.
pub fn write_joined_file(first: &[u8], second: &[u8], joined: usize, out: &mut [u8])
    requires { JoinedFileDue first.now second.now joined out.old }
    ensures { JoinedFileWritten first.now second.now joined out.old out.new }
{
    put_count(joined, out);
    write_concat(first, 2, second, 2, &mut out[2..]);
}

// Writes the section whose body is all of `body`.
pub fn write_section(body: &[u8], out: &mut [u8])
    requires { (length body.now ≤ 65535) × (2 + length body.now ≤ length out.old) }
    ensures { out.new ≡ at_front (section_bytes body.now []) out.old }
{
    put_count(body.len(), out);
    copy(body, &mut out[2..]);
}

// The kind that the empty prefix of a type begins with, by the type's kind. No type has a kind above 5.
fn empty_kind(kind: u8) -> u8
    ensures { result ≡ empty_kind kind }
{
    match kind {
        0 => 0,
        1 => 1,
        2 => 3,
        3 => 5,
        4 => 7,
        5 => 8,
        6..=255 => 7,
    }
}

// How many parts the empty prefix of a type has, by the type's kind: none if it is a leaf, of a sequence the first part alone. This is
// not for `type_arity` to say, which counts the parts of the type: an either has two, and its empty prefix none.
fn empty_parts(kind: u8) -> u8
    ensures { result ≡ prefix_arity (empty_kind kind) }
{
    match kind {
        0..=2 => 0,
        3 => 1,
        4 => 2,
        5 => 0,
        6..=255 => 2,
    }
}

// Writes the empty prefix of the type at the front, for which `out` has room, and says how many bytes it has. What is behind the type is
// not read. `owed` has a mark for each type that is still to be gone through, the last first: 1 if it is written, 0 if it is passed over.
// A stack of bytes, since calls as deep as a type can be would need more stack than a patch has left at its deepest.
pub fn write_empty(ty: TypeFront<'_>, out: &mut [u8]) -> usize
    requires { prefix_width (empty_prefix (front_tree ty)) ≤ length out.old }
    ensures width { result ≡ prefix_width (empty_prefix (front_tree ty.entry)) }
    ensures buffer { out.new ≡ at_front (prefix_bytes (empty_prefix (front_tree ty.entry)) []) out.old }
{
    let types = ty.bytes;
    let mut owed = [1u8; 255];
    let mut depth: usize = 1;
    let mut next: usize = 0;
    let mut written: usize = 0;
    while 0 < depth {
        depth -= 1;
        if owed[depth] == 0 {
            next = skip_type(types, next);
        } else {
            let kind = types[next];
            let parts = empty_parts(kind);
            if 0 < parts {
                out[written] = empty_kind(kind);
                written += 1;
                // The first part is written, and the second if the empty prefix has it.
                owed[depth] = parts - 1;
                owed[depth + 1] = 1;
                depth += 2;
                next += 1;
            } else {
                // The type is passed before the byte is written, so that its kind is read once.
                next = skip_type(types, next);
                out[written] = empty_kind(kind);
                written += 1;
            }
        }
    }
    written
}

// Writes the empty prefix of the nullable type, of any size, whose bytes are all of `source`; `out` has room for as many. Only 0 and 4
// stand in the type, which give way to 0 and 7: no branch, so that a processor does many bytes in one turn.
pub fn write_silence(source: &[u8], out: &mut [u8])
    requires { SilenceDue source.now out.old }
    ensures { SilenceWritten source.now out.old out.new }
{
    for at in 0..source.len() {
        out[at] = source[at] / 4 * 7;
    }
}

// Writes the type that the complete prefix at the front of `slice` leaves, for which `out` has room, and says how many nodes it has. What
// a complete prefix leaves is fixed by the prefix alone: the type is not asked for. A first part that is still coming does not stand in
// it, nor a choice that is still to be made, nor a kind above 10; what is behind the prefix is not read.
pub fn write_spent(slice: &[u8], out: &mut [u8]) -> usize
    requires { SpentDue slice.now out.old }
    ensures { SpentWritten slice.now out.old out.new result }
{
    let mut owed: usize = 1;
    let mut next: usize = 0;
    let mut written: usize = 0;
    while 0 < owed {
        let kind = slice[next];
        match kind {
            0..=4 => {
                out[written] = 0;
                written += 1;
                owed -= 1;
                next += root_width(kind);
            }
            5 => {
                return written;
            }
            6 => {
                next = skip_prefix(slice, next + 1);
            }
            7 => {
                out[written] = 4;
                written += 1;
                owed += 1;
                next += 1;
            }
            8 => {
                return written;
            }
            9..=10 => {
                next += 1;
            }
            11..=255 => {
                return written;
            }
        }
    }
    written
}
