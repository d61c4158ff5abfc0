// How long a slice can get: the longest prefix of a type is planned by one walk through the type, and then written by one loop.
// Measuring the sides of each either as it is written would go through a type once for every either above it.
#![tactic(auto)]

ghost use Rattle.std.specs.Prelude.{◌≡◌, ◌+◌, ◌≤◌, [], length};
ghost use Rattle.stream.specs.Buffers.{at_front};
ghost use Rattle.stream.specs.Types.{size};
ghost use Rattle.stream.specs.SliceFiles.{prefix_bytes, slice_file_bytes};
ghost use Rattle.stream.specs.Longest.{byte_count, longest_prefix};
ghost use Rattle.reading.specs.Fronts.{front_tree};
ghost use Rattle.measuring.specs.Planning.{longest_kind, largest_value, IsPlan, PlansFront, ChoiceDue, Chooses};

use reading::fronts::TypeFront;
use reading::prefixes::{VALUE_WIDTH, root_width};
use reading::types::{skip_type, type_arity};
use writing::{copy, put_count};

// In a plan, at the root of a part that is not chosen: no slice has such a kind.
const PASSED: u8 = 255;

// Where a type that was planned ends, and how many bytes its longest prefix has.
#[derive(Clone, Copy)]
pub struct Planned {
    pub end: usize,
    pub width: usize,
}

// The kind that the longest prefix of a type begins with, by the type's kind; of an either, if its first part is chosen. No type
// has a kind above 5.
fn longest_kind(kind: u8) -> u8
    ensures { result ≡ longest_kind kind }
{
    match kind {
        0 => 0,
        1 => 2,
        2 => 4,
        3 => 6,
        4 => 7,
        5 => 9,
        6..=255 => 9,
    }
}

// Chooses the longer part of an either, the first if they are equally long, and says how many bytes there are with the mark. The parts
// have been planned behind the root, the second from `second` on, and have so many bytes.
fn choose_longer(first_width: usize, second_width: usize, second: usize, plan: &mut [u8]) -> usize
    requires { ChoiceDue first_width second_width second plan.old }
    ensures { Chooses first_width second_width second plan.old plan.new result }
{
    if first_width < second_width {
        plan[0] = 10;
        plan[1] = PASSED;
        return 1 + second_width;
    }
    plan[second] = PASSED;
    1 + first_width
}

// Plans the longest prefix of the type at the front, for each node of which `plan` has room, and says where the type ends and how many
// bytes the prefix has. The plan is a byte for each node of the type: the kind that is written for it, or PASSED at the root of a part
// that is not chosen.
pub fn plan_longest(ty: TypeFront<'_>, plan: &mut [u8]) -> Planned
    requires { size (front_tree ty) ≤ length plan.old }
    ensures { PlansFront (front_tree ty.entry) plan.old plan.new result }
{
    let kind = ty.kind();
    let written = longest_kind(kind);
    plan[0] = written;
    if type_arity(kind) == 0 {
        let width = root_width(written);
        return Planned { end: 1, width };
    }
    let first = plan_longest(ty.first(), &mut plan[1..]);
    let behind = 1 + first.end;
    let second = plan_longest(ty.second(behind), &mut plan[behind..]);
    let end = behind + second.end;
    // Of an either one part is written, of the other kinds both.
    if kind == 5 {
        let width = choose_longer(first.width, second.width, behind, plan);
        return Planned { end, width };
    }
    Planned {
        end,
        width: 1 + first.width + second.width,
    }
}

// Writes the largest value of a level.
#[tactic(auto, unfolding(stream::specs::Reading::number_bytes, stream::specs::Levels::level_limit))]
fn put_largest(out: &mut [u8])
    requires { length largest_value ≤ length out.old }
    ensures { out.new ≡ at_front largest_value out.old }
{
    let largest = [255u8; VALUE_WIDTH];
    copy(&largest, out);
}

// Writes the longest prefix of the type at the front, as it was planned; it has `width` bytes, for which `out` has room. A level has its
// value behind the kind.
fn write_longest(ty: TypeFront<'_>, plan: &[u8], width: usize, out: &mut [u8])
    requires planned { IsPlan (front_tree ty) plan.now }
    requires measured { width ≡ byte_count (longest_prefix (front_tree ty)) }
    requires room { width ≤ length out.old }
    ensures { out.new ≡ at_front (prefix_bytes (longest_prefix (front_tree ty.entry)) []) out.old }
{
    let types = ty.bytes;
    let mut at: usize = 0;
    let mut written: usize = 0;
    while written < width {
        let kind = plan[at];
        if kind == PASSED {
            at = skip_type(types, at);
        } else if kind == 4 {
            out[written] = kind;
            put_largest(&mut out[written + 1..]);
            written += 1 + VALUE_WIDTH;
            at += 1;
        } else {
            out[written] = kind;
            written += 1;
            at += 1;
        }
    }
}

// Writes the file of the longest prefix of the type at the front, as it was planned; the prefix has `width` bytes, and `out` room for these
// and the count.
pub fn write_longest_file(ty: TypeFront<'_>, plan: &[u8], width: usize, out: &mut [u8])
    requires planned { IsPlan (front_tree ty) plan.now }
    requires measured { width ≡ byte_count (longest_prefix (front_tree ty)) }
    requires room { 2 + width ≤ length out.old }
    ensures { out.new ≡ at_front (slice_file_bytes (longest_prefix (front_tree ty.entry))) out.old }
{
    put_count(width, out);
    write_longest(ty, plan, width, &mut out[2..]);
}
