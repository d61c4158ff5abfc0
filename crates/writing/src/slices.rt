// Slices as bytes: whether a file is a slice of a type, what is known of it, and what it leaves of the type, in one pass.
//
// What is left is written on work bytes, if they have room for it: `left`. A caller that does not ask for it lends none.
ghost use Rattle.std.specs.Prelude.{◌+◌, ◌≤◌, ◌<◌, [], length};
ghost use Rattle.stream.specs.Types.{size};
ghost use Rattle.stream.specs.Types.Kinds.{Fork};
ghost use Rattle.stream.specs.TypeFiles.{type_bytes};
ghost use Rattle.reading.specs.Views.{tree};
ghost use Rattle.reading.specs.Fronts.{front_tree};
ghost use Rattle.writing.specs.Appending.{Appends};
ghost use Rattle.writing.specs.Leaving.{LeafLeft, WalksLeafLeaving, FirstStarts, PartUnder, PartsDue, WalksLeaving, SliceReadLeaving};

use crate::appending::{append, append_kind, within};
use reading::fronts::TypeFront;
use reading::prefixes::{
    Known, arrivals_of, belongs, both_known, crossed_known, first_complete, in_first,
    is_unfinished, prefix_arity, root_width,
};
use reading::sections::count_of;
use reading::types::TypeView;
use stream::Fault;

// Writes the type behind the first `written` bytes, if there is room. Most have one node, for which no copy is begun.
fn append_type(ty: TypeView<'_>, written: usize, left: &mut [u8]) -> usize
    requires { written + size (tree ty) ≤ 65535 }
    ensures { Appends (type_bytes (tree ty.entry) []) written left.old left.new result }
{
    if ty.size() == 1 {
        return append_kind(ty.kind(), written, left);
    }
    append(ty.bytes, written, left)
}

// A type and a prefix of it, walked through: what is behind either, and what is known of the prefix.
#[derive(Clone, Copy)]
pub struct Walked<'t, 's> {
    pub behind: &'t [u8],
    pub rest: &'s [u8],
    pub known: Known,
}

// Writes what a leaf leaves, and says how many nodes it stands on. One still awaited stands on a whole type and leaves it as it is; one
// that has come stands on one node and leaves the empty type.
fn write_leaf_left(ty: TypeFront<'_>, awaited: bool, left: &mut [u8]) -> usize
    ensures { LeafLeft (front_tree ty.entry) awaited left.old left.new result }
{
    if awaited {
        let (ty, _) = ty.split();
        append_type(ty, 0, left);
        return ty.size();
    }
    append_kind(0, 0, left);
    1
}

// A leaf, whose kind belongs there.
fn walk_leaf<'t, 's>(
    ty: TypeFront<'t>,
    slice: &'s [u8],
    left: &mut [u8],
) -> Result<Walked<'t, 's>, Fault>
    requires { 0 < length slice.now }
    ensures { WalksLeafLeaving (front_tree ty.entry) ty.entry.bytes.now slice.now left.old left.new result }
{
    let kind = slice[0];
    let width = root_width(kind);
    if slice.len() < width {
        return Err(Fault::SliceCutShort);
    }
    let awaited = is_unfinished(kind);
    let nodes = write_leaf_left(ty, awaited, left);
    Ok(Walked {
        behind: &ty.bytes[nodes..],
        rest: &slice[width..],
        known: Known {
            complete: !awaited,
            remains: nodes,
            arrived: arrivals_of(kind),
            overlap: 1,
        },
    })
}

// Where the part that is walked through first under a slice's kind writes what it leaves: behind the kind byte of its type, which is
// written; at the end, and so nothing, if it was crossed; at the front if it was chosen, since then that is all that is left.
fn first_start(kind: u8, ty: u8, left: &mut [u8]) -> usize
    ensures { FirstStarts kind ty left.old left.new result }
{
    if kind == 6 {
        return left.len();
    }
    if 8 < kind {
        return 0;
    }
    if left.len() == 0 {
        return 0;
    }
    left[0] = ty;
    1
}

// The part that is walked through first under a slice's kind: the first of the type, or the second if that was chosen.
fn part_under(ty: TypeFront<'_>, kind: u8) -> TypeFront<'_>
    requires { Fork (front_tree ty) }
    ensures { PartUnder (front_tree ty.entry) ty.entry.bytes.now kind (front_tree result) result.bytes.now }
{
    if kind == 10 {
        return ty.second(ty.first_end());
    }
    ty.first()
}

// Walks through the type and the prefix of it at the front of both, to the end of both or to the first fault.
// `complete` says whether the prefix has to be.
#[cycle(walk_each_part)]
fn walk_prefix<'t, 's>(
    ty: TypeFront<'t>,
    slice: &'s [u8],
    complete: bool,
    left: &mut [u8],
) -> Result<Walked<'t, 's>, Fault>
    ensures { WalksLeaving (front_tree ty.entry) ty.entry.bytes.now slice.now complete left.old left.new result }
{
    if slice.is_empty() {
        return Err(Fault::SliceCutShort);
    }
    let kind = slice[0];
    if 10 < kind {
        return Err(Fault::SliceUnlisted);
    }
    if !belongs(ty.kind(), kind, complete) {
        return Err(Fault::SliceMisplaced);
    }
    let parts = prefix_arity(kind);
    if parts == 0 {
        return walk_leaf(ty, slice, left);
    }
    if parts == 1 {
        return walk_one(ty, slice, complete, left);
    }
    walk_two(ty, slice, complete, left)
}

// The same where the first byte is a kind with one part, which belongs there: that of a first part that is still coming, or a mark.
#[cycle(walk_each_part)]
fn walk_one<'t, 's>(
    ty: TypeFront<'t>,
    slice: &'s [u8],
    complete: bool,
    left: &mut [u8],
) -> Result<Walked<'t, 's>, Fault>
    requires { PartsDue 1 (front_tree ty) slice.now complete }
    ensures { WalksLeaving (front_tree ty.entry) ty.entry.bytes.now slice.now complete left.old left.new result }
{
    let kind = slice[0];
    let first = first_complete(kind, complete);
    let start = first_start(kind, ty.kind(), left);
    let part = part_under(ty, kind);
    let prefix = walk_prefix(part, &slice[1..], first, &mut left[start..])?;
    if kind == 10 {
        return Ok(prefix);
    }
    let (second, behind) = ty.second_from(prefix.behind).split();
    if kind == 9 {
        return Ok(Walked { behind, ..prefix });
    }
    append_type(second, 1 + prefix.known.remains, left);
    Ok(Walked {
        behind,
        rest: prefix.rest,
        known: in_first(prefix.known, second.size()),
    })
}

// The same where the first byte is a kind with two parts, which belongs there: that of a crossing, or of two sides.
#[cycle(walk_each_part)]
fn walk_two<'t, 's>(
    ty: TypeFront<'t>,
    slice: &'s [u8],
    complete: bool,
    left: &mut [u8],
) -> Result<Walked<'t, 's>, Fault>
    requires { PartsDue 2 (front_tree ty) slice.now complete }
    ensures { WalksLeaving (front_tree ty.entry) ty.entry.bytes.now slice.now complete left.old left.new result }
{
    let kind = slice[0];
    let first = first_complete(kind, complete);
    let start = first_start(kind, ty.kind(), left);
    let prefix = walk_prefix(ty.first(), &slice[1..], first, &mut left[start..])?;
    let other = ty.second_from(prefix.behind);
    if kind == 6 {
        let mut second = walk_prefix(other, prefix.rest, complete, left)?;
        second.known = crossed_known(prefix.known, second.known);
        return Ok(second);
    }
    let from = within(1 + prefix.known.remains, left.len());
    let mut second = walk_prefix(other, prefix.rest, complete, &mut left[from..])?;
    second.known = both_known(prefix.known, second.known);
    Ok(second)
}

// Whether the bytes are the file of a prefix of the type at the front; otherwise the first fault. Any bytes may be handed in.
pub fn read_slice_file(ty: TypeFront<'_>, file: &[u8], left: &mut [u8]) -> Result<Known, Fault>
    ensures { SliceReadLeaving (front_tree ty.entry) file.now left.old left.new result }
{
    let length = file.len();
    if length < 2 {
        return Err(Fault::SliceCutShort);
    }
    let count = count_of(file[0], file[1]);
    if length - 2 < count {
        return Err(Fault::SliceCutShort);
    }
    let end = 2 + count;
    let prefix = walk_prefix(ty, &file[2..end], false, left)?;
    if !prefix.rest.is_empty() {
        return Err(Fault::SliceLeftOver);
    }
    if end < length {
        return Err(Fault::SliceLeftOver);
    }
    Ok(prefix.known)
}
