// Regroup right, regroup left, spread and front, mark first and mark second: what they send has the bytes of the prefix in another order
// or behind others, and they leave one byte. Each is typed first. Where the type that it gives has room, what it sends has.
ghost use Rattle.std.specs.Prelude.{◌≡◌};
ghost use Rattle.reading.specs.InputViews.{type, prefix};
ghost use Rattle.node.specs.Nodes.{regroup_right, regroup_left, spread, front};
ghost use Rattle.node.specs.Nodes.Kinds.{node_kind};
ghost use Rattle.patch_reading.specs.Fronts.{node};
ghost use Rattle.patch_reading.specs.PatchReads.{node_width};
ghost use Rattle.typing.specs.Typing.{Marks};
ghost use Rattle.leaf_feeding.specs.Steps.{LeafRooms, NodeAnswers};
ghost use Rattle.leaf_feeding.specs.Reordered.{FitsIn, SendDue, Sent, MarkOf};

use crate::Step;
use patch_reading::fronts::NodeFront;
use reading::inputs::Input;
use stream::Fault;
use typing::{give_front, give_marked, give_regrouped_left, give_regrouped_right, give_spread};
use writing::appending::{append, append_kind};
use writing::rearranging::{write_left, write_right, write_spread};

// A type for which there is no room fails too.
fn fitting(typed: Result<usize, Fault>, room: usize) -> Option<usize>
    ensures { FitsIn typed room result }
{
    let size = typed.ok()?;
    if room < size {
        return None;
    }
    Some(size)
}

// 5 5 p gives 5 p. 5 6 b q gives 6 b 5 q and 6 6 b c q gives 6 b 6 c q: the outer kind goes behind b.
#[tactic(auto, using(reading::proofs::InputViews::not_empty))]
fn send_regrouped_right(input: Input<'_>, out: &mut [u8], remainder: &mut [u8]) -> usize
    requires { SendDue (type input) regroup_right (prefix input) out.old remainder.old }
    ensures { Sent (type input.entry) regroup_right (prefix input.entry) out.old remainder.old out.new remainder.new result }
{
    match input.crossed_in_first() {
        None => {
            remainder[0] = 11;
            append(&input.slice[1..], 0, out)
        }
        Some(cut) => {
            remainder[0] = 0;
            write_right(6, cut.kind, cut.pieces, out)
        }
    }
}

// 5 p gives 5 5 p. 6 b 5 q gives 5 6 b q and 6 b 6 c q gives 6 6 b c q: the kind behind b comes to the front.
fn send_regrouped_left(input: Input<'_>, out: &mut [u8], remainder: &mut [u8]) -> usize
    requires { SendDue (type input) regroup_left (prefix input) out.old remainder.old }
    ensures { Sent (type input.entry) regroup_left (prefix input.entry) out.old remainder.old out.new remainder.new result }
{
    match input.crossed_in_second() {
        None => {
            remainder[0] = 12;
            let before = append_kind(5, 0, out);
            append(input.slice, before, out)
        }
        Some(cut) => {
            remainder[0] = 0;
            write_left(cut.kind, 6, cut.pieces, out)
        }
    }
}

// 5 p gives 7 5 p 5 p. 6 b 7 q r gives 7 6 b q 6 b r.
fn send_spread(input: Input<'_>, out: &mut [u8], remainder: &mut [u8]) -> usize
    requires { SendDue (type input) spread (prefix input) out.old remainder.old }
    ensures { Sent (type input.entry) spread (prefix input.entry) out.old remainder.old out.new remainder.new result }
{
    match input.crossed_in_second() {
        None => {
            remainder[0] = 13;
            let before = append_kind(7, 0, out);
            let half = append(input.slice, before, out);
            append(input.slice, half, out)
        }
        Some(cut) => {
            remainder[0] = 0;
            write_spread(7, 6, cut.pieces, out)
        }
    }
}

// p gives 6 0 p.
fn send_in_front(input: Input<'_>, out: &mut [u8], remainder: &mut [u8]) -> usize
    requires { SendDue (type input) front (prefix input) out.old remainder.old }
    ensures { Sent (type input.entry) front (prefix input.entry) out.old remainder.old out.new remainder.new result }
{
    remainder[0] = 0;
    let mut sent = append_kind(6, 0, out);
    sent = append_kind(0, sent, out);
    append(input.slice, sent, out)
}

// The kind of the slice that a node of the kind `kind` sends: 16 marks the first part as chosen, 17 the second.
fn mark_of(kind: u8) -> u8
    ensures { MarkOf kind result }
{
    if kind == 16 {
        return 9;
    }
    10
}

// p gives 9 p, or 10 p.
fn send_marked(mark: NodeFront<'_>, input: Input<'_>, out: &mut [u8], remainder: &mut [u8]) -> usize
    requires marks { Marks (node_kind (node mark)) }
    requires send_due { SendDue (type input) (node mark) (prefix input) out.old remainder.old }
    ensures { Sent (type input.entry) (node mark.entry) (prefix input.entry) out.old remainder.old out.new remainder.new result }
{
    remainder[0] = 0;
    let sent = append_kind(mark_of(mark.kind()), 0, out);
    append(input.slice, sent, out)
}

// Regroup right sends s, (t, r) for (s, t), r.
pub fn feed_regroup_right(
    input: Input<'_>,
    out: &mut [u8],
    remainder: &mut [u8],
    given: &mut [u8],
) -> Option<Step>
    requires { LeafRooms out.old remainder.old given.old }
    ensures { NodeAnswers 1 (type input.entry) regroup_right (prefix input.entry) out.old remainder.old given.old out.new remainder.new given.new result }
{
    let size = fitting(give_regrouped_right(input.ty, given), given.len())?;
    let sent = send_regrouped_right(input, out, remainder);
    Some(Step {
        end: 1,
        sent,
        kept: 1,
        size,
    })
}

// Regroup left sends (s, t), r for s, (t, r).
pub fn feed_regroup_left(
    input: Input<'_>,
    out: &mut [u8],
    remainder: &mut [u8],
    given: &mut [u8],
) -> Option<Step>
    requires { LeafRooms out.old remainder.old given.old }
    ensures { NodeAnswers 1 (type input.entry) regroup_left (prefix input.entry) out.old remainder.old given.old out.new remainder.new given.new result }
{
    let size = fitting(give_regrouped_left(input.ty, given), given.len())?;
    let sent = send_regrouped_left(input, out, remainder);
    Some(Step {
        end: 1,
        sent,
        kept: 1,
        size,
    })
}

// Spread sends (s, t) beside (s, r) for s, (t beside r).
pub fn feed_spread(
    input: Input<'_>,
    out: &mut [u8],
    remainder: &mut [u8],
    given: &mut [u8],
) -> Option<Step>
    requires { LeafRooms out.old remainder.old given.old }
    ensures { NodeAnswers 1 (type input.entry) spread (prefix input.entry) out.old remainder.old given.old out.new remainder.new given.new result }
{
    let size = fitting(give_spread(input.ty, given), given.len())?;
    let sent = send_spread(input, out, remainder);
    Some(Step {
        end: 1,
        sent,
        kept: 1,
        size,
    })
}

// Front sends empty, s for s.
pub fn feed_front(
    input: Input<'_>,
    out: &mut [u8],
    remainder: &mut [u8],
    given: &mut [u8],
) -> Option<Step>
    requires { LeafRooms out.old remainder.old given.old }
    ensures { NodeAnswers 1 (type input.entry) front (prefix input.entry) out.old remainder.old given.old out.new remainder.new given.new result }
{
    let size = fitting(give_front(input.ty, given), given.len())?;
    let sent = send_in_front(input, out, remainder);
    Some(Step {
        end: 1,
        sent,
        kept: 1,
        size,
    })
}

// Mark first and mark second send the prefix as that of the part which they choose, even one that brings nothing. The node carries the
// type of the other part.
pub fn feed_mark(
    mark: NodeFront<'_>,
    input: Input<'_>,
    out: &mut [u8],
    remainder: &mut [u8],
    given: &mut [u8],
) -> Option<Step>
    requires marks { Marks (node_kind (node mark)) }
    requires leaf_rooms { LeafRooms out.old remainder.old given.old }
    ensures { NodeAnswers (node_width (node mark.entry)) (type input.entry) (node mark.entry) (prefix input.entry) out.old remainder.old given.old out.new remainder.new given.new result }
{
    let typed = give_marked(input.ty, mark, given).ok()?;
    if given.len() < typed.size {
        return None;
    }
    let sent = send_marked(mark, input, out, remainder);
    Some(Step {
        end: typed.end,
        sent,
        kept: 1,
        size: typed.size,
    })
}
