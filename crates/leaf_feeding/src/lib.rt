// One feed of a node without parts: what it sends, written on `out`, the node left, written on `remainder`, and the type that it gives,
// written on `given`. All three are work bytes; what is behind may be anything afterwards. A node fails if its type lacks the shape that
// it takes, and if there is no room for the type that it gives. Where that has room, what is sent has.
#![tactic(auto)]

ghost use Rattle.std.specs.Prelude.{◌≡◌, ◌≤◌, length};
ghost use Rattle.reading.specs.Views.{tree};
ghost use Rattle.reading.specs.InputViews.{type, prefix};
ghost use Rattle.node.specs.Nodes.{pass, left_side, right_side, first, second};
ghost use Rattle.node.specs.Nodes.Kinds.{node_kind};
ghost use Rattle.patch_reading.specs.Fronts.{node};
ghost use Rattle.leaf_feeding.specs.Steps.{LeafRooms, NodeAnswers, SilentAnswers, CueAnswers, LevelAnswers, HandsOn, Waits, LeavesSilent};

use patch_reading::fronts::NodeFront;
use reading::fronts::TypeFront;
use reading::inputs::{Input, Parts};
use reading::prefixes::{VALUE_WIDTH, opens};
use reading::types::TypeView;
use writing::{copy, write_empty, write_silence, write_spent};

pub mod reordered;

// What a feed of a node comes to: how many bytes the node has, how many are sent, how many the node left has, and how many nodes the
// type that it gives.
#[derive(Clone, Copy)]
pub struct Step {
    pub end: usize,
    pub sent: usize,
    pub kept: usize,
    pub size: usize,
}

// Gives the type and sends the prefix, both as they are, and leaves a node of one byte.
#[tactic(auto, using(reading::proofs::TypeViews::size_is, reading::proofs::InputViews::slice_short))]
fn hand_on(
    kind: u8,
    input: Input<'_>,
    out: &mut [u8],
    remainder: &mut [u8],
    given: &mut [u8],
) -> Option<Step>
    requires { LeafRooms out.old remainder.old given.old }
    ensures { HandsOn kind (type input.entry) (prefix input.entry) out.old remainder.old given.old out.new remainder.new given.new result }
{
    let ty = input.ty.bytes;
    if given.len() < ty.len() {
        return None;
    }
    copy(ty, given);
    copy(input.slice, out);
    remainder[0] = kind;
    Some(Step {
        end: 1,
        sent: input.slice.len(),
        kept: 1,
        size: ty.len(),
    })
}

// Pass sends the prefix.
pub fn feed_pass(
    input: Input<'_>,
    out: &mut [u8],
    remainder: &mut [u8],
    given: &mut [u8],
) -> Option<Step>
    requires { LeafRooms out.old remainder.old given.old }
    ensures { NodeAnswers 1 (type input.entry) pass (prefix input.entry) out.old remainder.old given.old out.new remainder.new given.new result }
{
    hand_on(0, input, out, remainder, given)
}

// Leaves silent with the empty type, once a type of one node is given by a node of `end` bytes.
fn leave_silent(end: usize, sent: usize, remainder: &mut [u8]) -> Option<Step>
    requires { 2 ≤ length remainder.old }
    ensures { LeavesSilent end sent remainder.old remainder.new result }
{
    remainder[0] = 1;
    remainder[1] = 0;
    Some(Step {
        end,
        sent,
        kept: 2,
        size: 1,
    })
}

// Cue waits until the prefix opens it, and then sends itself, once. Of what it is fed it asks for the prefix alone, in its bytes: the
// answer is that for every type. Of bytes that hold no prefix nothing is promised.
pub fn feed_cue(
    prefix: &[u8],
    out: &mut [u8],
    remainder: &mut [u8],
    given: &mut [u8],
) -> Option<Step>
    requires { LeafRooms out.old remainder.old given.old }
    ensures { CueAnswers prefix.now out.old remainder.old given.old out.new remainder.new given.new result }
{
    if given.is_empty() {
        return None;
    }
    given[0] = 1;
    if opens(prefix) {
        out[0] = 2;
        return leave_silent(1, 1, remainder);
    }
    out[0] = 1;
    remainder[0] = 2;
    Some(Step {
        end: 1,
        sent: 1,
        kept: 1,
        size: 1,
    })
}

// Level waits as cue does, on the prefix alone, and then sends its value, once.
#[tactic(auto, using(patch_reading::proofs::NodeFronts::value_inside, stream::proofs::Types::Laws::limit_is))]
pub fn feed_level(
    level: NodeFront<'_>,
    prefix: &[u8],
    out: &mut [u8],
    remainder: &mut [u8],
    given: &mut [u8],
) -> Option<Step>
    requires is_level { node_kind (node level) ≡ 3 }
    requires leaf_rooms { LeafRooms out.old remainder.old given.old }
    ensures { LevelAnswers (node level.entry) prefix.now out.old remainder.old given.old out.new remainder.new given.new result }
{
    if given.is_empty() {
        return None;
    }
    let end = 1 + VALUE_WIDTH;
    given[0] = 2;
    if opens(prefix) {
        out[0] = 4;
        copy(level.value(), &mut out[1..]);
        return leave_silent(end, 1 + VALUE_WIDTH, remainder);
    }
    out[0] = 3;
    copy(&level.bytes[..end], remainder);
    Some(Step {
        end,
        sent: 1,
        kept: end,
        size: 1,
    })
}

// Silent sends nothing of the type that it carries, which is behind its kind byte, and stays.
#[tactic(auto, using(reading::proofs::TypeViews::size_is))]
pub fn feed_silent(
    silent: NodeFront<'_>,
    out: &mut [u8],
    remainder: &mut [u8],
    given: &mut [u8],
) -> Option<Step>
    requires is_silent { node_kind (node silent) ≡ 1 }
    requires leaf_rooms { LeafRooms out.old remainder.old given.old }
    ensures { SilentAnswers (node silent.entry) out.old remainder.old given.old out.new remainder.new given.new result }
{
    let carried = silent.carried();
    if !carried.is_nullable() {
        return None;
    }
    let size = carried.size();
    if given.len() < size {
        return None;
    }
    let end = 1 + size;
    copy(carried.bytes, given);
    write_silence(carried.bytes, out);
    copy(&silent.bytes[..end], remainder);
    Some(Step {
        end,
        sent: size,
        kept: end,
        size,
    })
}

// Left sends the first side.
pub fn feed_left(
    input: Input<'_>,
    out: &mut [u8],
    remainder: &mut [u8],
    given: &mut [u8],
) -> Option<Step>
    requires { LeafRooms out.old remainder.old given.old }
    ensures { NodeAnswers 1 (type input.entry) left_side (prefix input.entry) out.old remainder.old given.old out.new remainder.new given.new result }
{
    match input.parts() {
        Parts::Beside(side, _) => hand_on(5, side, out, remainder, given),
        _ => None,
    }
}

// Right sends the second side.
pub fn feed_right(
    input: Input<'_>,
    out: &mut [u8],
    remainder: &mut [u8],
    given: &mut [u8],
) -> Option<Step>
    requires { LeafRooms out.old remainder.old given.old }
    ensures { NodeAnswers 1 (type input.entry) right_side (prefix input.entry) out.old remainder.old given.old out.new remainder.new given.new result }
{
    match input.parts() {
        Parts::Beside(_, side) => hand_on(6, side, out, remainder, given),
        _ => None,
    }
}

// First sends what has come of the first part; after a crossing it stays silent with what that part leaves.
pub fn feed_first(
    input: Input<'_>,
    out: &mut [u8],
    remainder: &mut [u8],
    given: &mut [u8],
) -> Option<Step>
    requires { LeafRooms out.old remainder.old given.old }
    ensures { NodeAnswers 1 (type input.entry) first (prefix input.entry) out.old remainder.old given.old out.new remainder.new given.new result }
{
    match input.parts() {
        Parts::Coming(part, _) => hand_on(7, part, out, remainder, given),
        Parts::Crossed(part, _) => {
            let step = hand_on(7, part, out, remainder, given)?;
            remainder[0] = 1;
            let size = write_spent(part.slice, &mut remainder[1..]);
            Some(Step {
                kept: 1 + size,
                ..step
            })
        }
        _ => None,
    }
}

// Second while the first part is coming, of the type of the second part: it sends nothing of it.
#[tactic(auto, using(reading::proofs::TypeViews::size_is))]
fn feed_waiting(
    ty: TypeView<'_>,
    out: &mut [u8],
    remainder: &mut [u8],
    given: &mut [u8],
) -> Option<Step>
    requires { LeafRooms out.old remainder.old given.old }
    ensures { Waits (tree ty.entry) out.old remainder.old given.old out.new remainder.new given.new result }
{
    let size = ty.size();
    if given.len() < size {
        return None;
    }
    copy(ty.bytes, given);
    let sent = write_empty(TypeFront::of(ty), out);
    remainder[0] = 8;
    Some(Step {
        end: 1,
        sent,
        kept: 1,
        size,
    })
}

// Second sends nothing of the second part until the crossing, and then what comes of it.
pub fn feed_second(
    input: Input<'_>,
    out: &mut [u8],
    remainder: &mut [u8],
    given: &mut [u8],
) -> Option<Step>
    requires { LeafRooms out.old remainder.old given.old }
    ensures { NodeAnswers 1 (type input.entry) second (prefix input.entry) out.old remainder.old given.old out.new remainder.new given.new result }
{
    match input.parts() {
        Parts::Coming(_, part) => feed_waiting(part, out, remainder, given),
        Parts::Crossed(_, part) => hand_on(0, part, out, remainder, given),
        _ => None,
    }
}
