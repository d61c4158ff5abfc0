// One feed of a node: what it sends, written on `out`, the node left, written on `remainder`, and the type that it gives, written on
// `given`, as in `leaf_feeding`; or it fails, which it does exactly if Check refuses the node.
#![tactic(auto)]

ghost use Rattle.std.specs.Prelude.{◌≡◌, ◌+◌};
ghost use Rattle.std.proofs.Common.{Fits};
ghost use Rattle.std.specs.Int.{w64};
ghost use Rattle.stream.specs.Types.{seq, either};
ghost use Rattle.stream.specs.Prefixes.{in_first, none_chosen, first_chosen, second_chosen};
ghost use Rattle.node.specs.Nodes.Kinds.{node_kind};
ghost use Rattle.reading.specs.Views.{tree};
ghost use Rattle.reading.specs.InputViews.{type, prefix};
ghost use Rattle.patch_reading.specs.PatchReads.{node_width};
ghost use Rattle.patch_reading.specs.Fronts.{node};
ghost use Rattle.leaf_feeding.specs.Steps.{NodeAnswers};
ghost use Rattle.feeding.specs.Feeds.{sent_kind, given_kind, kept_before, NodeRooms, IsPair, PairAnswers};

use leaf_feeding::reordered::{
    feed_front, feed_mark, feed_regroup_left, feed_regroup_right, feed_spread,
};
use leaf_feeding::{
    Step, feed_cue, feed_first, feed_left, feed_level, feed_pass, feed_right, feed_second,
    feed_silent,
};
use patch_reading::fronts::NodeFront;
use reading::fronts::TypeFront;
use reading::inputs::{Input, Parts};
use reading::prefixes::MAX_SLICE_FILE;
use reading::types::TypeView;
use typing::{type_choose, type_node};
use writing::{copy, write_empty};

// How two nodes that are fed in turn belong together: side by side, or as the two parts of a sequence of which the first was crossed.
#[derive(Clone, Copy)]
pub enum Pair {
    Beside,
    Crossed,
}

impl Pair {
    // The kind of what two nodes send together.
    fn sent_kind(self) -> u8
        ensures { result ≡ sent_kind self }
    {
        match self {
            Pair::Beside => 7,
            Pair::Crossed => 6,
        }
    }

    // The kind of the type that they give.
    fn given_kind(self) -> u8
        ensures { result ≡ given_kind self }
    {
        match self {
            Pair::Beside => 4,
            Pair::Crossed => 3,
        }
    }

    // Where the second node's remainder starts, if the first one's has `kept` bytes. After a crossing *then* is gone, and with it what
    // is left of its first node: the second node's remainder goes over it.
    fn kept_before(self, kept: usize) -> usize
        requires { Fits w64 (1 + kept) }
        ensures { result ≡ kept_before self kept }
    {
        match self {
            Pair::Beside => 1 + kept,
            Pair::Crossed => 0,
        }
    }
}

// Feeds the input to the node. A node is fed by its kind; a kind above 17 is refused where the patch is read, and no node has it.
#[cycle(feed_each_node)]
pub fn feed_node(
    front: NodeFront<'_>,
    input: Input<'_>,
    out: &mut [u8],
    remainder: &mut [u8],
    given: &mut [u8],
) -> Option<Step>
    requires { NodeRooms (node front) out.old remainder.old given.old }
    ensures { NodeAnswers (node_width (node front.entry)) (type input.entry) (node front.entry) (prefix input.entry) out.old remainder.old given.old out.new remainder.new given.new result }
{
    match front.kind() {
        0 => feed_pass(input, out, remainder, given),
        1 => feed_silent(front, out, remainder, given),
        2 => feed_cue(input.slice, out, remainder, given),
        3 => feed_level(front, input.slice, out, remainder, given),
        4 => feed_both(front, input, out, remainder, given),
        5 => feed_left(input, out, remainder, given),
        6 => feed_right(input, out, remainder, given),
        7 => feed_first(input, out, remainder, given),
        8 => feed_second(input, out, remainder, given),
        9 => feed_then(front, input, out, remainder, given),
        10 => feed_chain(front, input, out, remainder, given),
        11 => feed_regroup_right(input, out, remainder, given),
        12 => feed_regroup_left(input, out, remainder, given),
        13 => feed_spread(input, out, remainder, given),
        14 => feed_front(input, out, remainder, given),
        15 => feed_choose(front, input, out, remainder, given),
        16..=17 => feed_mark(front, input, out, remainder, given),
        18..=255 => None,
    }
}

// Feeds *both*: each of its nodes gets the whole input. A function of its own, since the inputs that it hands on would be cleared at the entry
// of `feed_node`, whatever the kind.
#[cycle(feed_each_node)]
fn feed_both(
    front: NodeFront<'_>,
    input: Input<'_>,
    out: &mut [u8],
    remainder: &mut [u8],
    given: &mut [u8],
) -> Option<Step>
    requires is_both { node_kind (node front) ≡ 4 }
    requires rooms { NodeRooms (node front) out.old remainder.old given.old }
    ensures { NodeAnswers (node_width (node front.entry)) (type input.entry) (node front.entry) (prefix input.entry) out.old remainder.old given.old out.new remainder.new given.new result }
{
    feed_parts(Pair::Beside, front, input, input, out, remainder, given)
}

// Feeds the two parts of the node in turn.
#[cycle(feed_each_node)]
fn feed_parts(
    pair: Pair,
    front: NodeFront<'_>,
    first: Input<'_>,
    second: Input<'_>,
    out: &mut [u8],
    remainder: &mut [u8],
    given: &mut [u8],
) -> Option<Step>
    requires is_pair { IsPair pair (node front) }
    requires rooms { NodeRooms (node front) out.old remainder.old given.old }
    ensures { PairAnswers pair (node front.entry) (type first.entry) (type second.entry) (prefix first.entry) (prefix second.entry) out.old remainder.old given.old out.new remainder.new given.new result }
{
    if given.is_empty() {
        return None;
    }
    out[0] = pair.sent_kind();
    remainder[0] = 4;
    given[0] = pair.given_kind();
    let one = feed_node(
        front.first(),
        first,
        &mut out[1..],
        &mut remainder[1..],
        &mut given[1..],
    )?;
    let end = 1 + one.end;
    let sent = 1 + one.sent;
    let size = 1 + one.size;
    let kept = pair.kept_before(one.kept);
    let other = feed_node(
        front.second(end),
        second,
        &mut out[sent..],
        &mut remainder[kept..],
        &mut given[size..],
    )?;
    Some(Step {
        end: end + other.end,
        sent: sent + other.sent,
        kept: kept + other.kept,
        size: size + other.size,
    })
}

// Feeds *then*: both nodes at the crossing, its first node alone while the first part is still coming.
#[cycle(feed_each_node)]
fn feed_then(
    front: NodeFront<'_>,
    input: Input<'_>,
    out: &mut [u8],
    remainder: &mut [u8],
    given: &mut [u8],
) -> Option<Step>
    requires is_then { node_kind (node front) ≡ 9 }
    requires rooms { NodeRooms (node front) out.old remainder.old given.old }
    ensures { NodeAnswers (node_width (node front.entry)) (type input.entry) (node front.entry) (prefix input.entry) out.old remainder.old given.old out.new remainder.new given.new result }
{
    match input.parts() {
        Parts::Crossed(first, second) => {
            feed_parts(Pair::Crossed, front, first, second, out, remainder, given)
        }
        Parts::Coming(part, second) => feed_coming(front, part, second, out, remainder, given),
        _ => None,
    }
}

// Feeds *then* while the first part is still coming. The second node stays as it is; its type is given all the same.
#[cycle(feed_each_node)]
fn feed_coming(
    front: NodeFront<'_>,
    part: Input<'_>,
    second: TypeView<'_>,
    out: &mut [u8],
    remainder: &mut [u8],
    given: &mut [u8],
) -> Option<Step>
    requires is_then { node_kind (node front) ≡ 9 }
    requires rooms { NodeRooms (node front) out.old remainder.old given.old }
    ensures { NodeAnswers (node_width (node front.entry)) (seq (type part.entry) (tree second.entry)) (node front.entry) (in_first (prefix part.entry)) out.old remainder.old given.old out.new remainder.new given.new result }
{
    if given.is_empty() {
        return None;
    }
    out[0] = 5;
    remainder[0] = 9;
    given[0] = 3;
    let step = feed_node(
        front.first(),
        part,
        &mut out[1..],
        &mut remainder[1..],
        &mut given[1..],
    )?;
    let end = 1 + step.end;
    let size = 1 + step.size;
    let waiting = front.second(end);
    let typed = type_node(second, waiting, &mut given[size..]).ok()?;
    if given.len() - size < typed.size {
        return None;
    }
    let kept = 1 + step.kept;
    copy(&waiting.bytes[..typed.end], &mut remainder[kept..]);
    Some(Step {
        end: end + typed.end,
        sent: 1 + step.sent,
        kept: kept + typed.end,
        size: size + typed.size,
    })
}

// Feeds *chain*: the second node takes what the first sends, of the type that the first gives.
#[cycle(feed_each_node)]
fn feed_chain(
    front: NodeFront<'_>,
    input: Input<'_>,
    out: &mut [u8],
    remainder: &mut [u8],
    given: &mut [u8],
) -> Option<Step>
    requires is_chain { node_kind (node front) ≡ 10 }
    requires rooms { NodeRooms (node front) out.old remainder.old given.old }
    ensures { NodeAnswers (node_width (node front.entry)) (type input.entry) (node front.entry) (prefix input.entry) out.old remainder.old given.old out.new remainder.new given.new result }
{
    let mut between = [0u8; MAX_SLICE_FILE];
    let mut middle = [0u8; 255];
    remainder[0] = 10;
    let step = feed_node(
        front.first(),
        input,
        &mut between,
        &mut remainder[1..],
        &mut middle,
    )?;
    let sent = Input {
        ty: TypeView {
            bytes: &middle[..step.size],
        },
        slice: &between[..step.sent],
    };
    let end = 1 + step.end;
    let kept = 1 + step.kept;
    let rest = feed_node(front.second(end), sent, out, &mut remainder[kept..], given)?;
    Some(Step {
        end: end + rest.end,
        kept: kept + rest.kept,
        ..rest
    })
}

// Feeds *choose*: until one part is chosen it waits, and then the chosen part's node is fed alone.
#[cycle(feed_each_node)]
fn feed_choose(
    front: NodeFront<'_>,
    input: Input<'_>,
    out: &mut [u8],
    remainder: &mut [u8],
    given: &mut [u8],
) -> Option<Step>
    requires is_choose { node_kind (node front) ≡ 15 }
    requires rooms { NodeRooms (node front) out.old remainder.old given.old }
    ensures { NodeAnswers (node_width (node front.entry)) (type input.entry) (node front.entry) (prefix input.entry) out.old remainder.old given.old out.new remainder.new given.new result }
{
    match input.kind() {
        8 => feed_unchosen(front, input.ty, out, remainder, given),
        _ => match input.parts() {
            Parts::FirstChosen(part, other) => feed_first_chosen(
                front, part, other, out, remainder, given,
            ),
            Parts::SecondChosen(part, other) => feed_second_chosen(
                front, part, other, out, remainder, given,
            ),
            _ => None,
        },
    }
}

// Feeds *choose* while no part is chosen: it sends nothing of the type that both its nodes give, and stays as it is. Not taken
// into `feed_node`, whose frame is on the stack once for each level.
#[inline(never)]
fn feed_unchosen(
    front: NodeFront<'_>,
    ty: TypeView<'_>,
    out: &mut [u8],
    remainder: &mut [u8],
    given: &mut [u8],
) -> Option<Step>
    requires is_choose { node_kind (node front) ≡ 15 }
    requires rooms { NodeRooms (node front) out.old remainder.old given.old }
    ensures { NodeAnswers (node_width (node front.entry)) (tree ty.entry) (node front.entry) none_chosen out.old remainder.old given.old out.new remainder.new given.new result }
{
    let typed = type_choose(ty, front, given).ok()?;
    let size = typed.size;
    if given.len() < size {
        return None;
    }
    let whole = TypeView {
        bytes: &given[..size],
    };
    let sent = write_empty(TypeFront::of(whole), out);
    copy(&front.bytes[..typed.end], remainder);
    Some(Step {
        end: typed.end,
        sent,
        kept: typed.end,
        size,
    })
}

// Feeds the first node of *choose*, which is left alone. The second node has to give the same type: it is written behind what is left
// of the first, where the second node itself would have had room.
#[cycle(feed_each_node)]
fn feed_first_chosen(
    front: NodeFront<'_>,
    part: Input<'_>,
    other: TypeView<'_>,
    out: &mut [u8],
    remainder: &mut [u8],
    given: &mut [u8],
) -> Option<Step>
    requires is_choose { node_kind (node front) ≡ 15 }
    requires rooms { NodeRooms (node front) out.old remainder.old given.old }
    ensures { NodeAnswers (node_width (node front.entry)) (either (type part.entry) (tree other.entry)) (node front.entry) (first_chosen (prefix part.entry)) out.old remainder.old given.old out.new remainder.new given.new result }
{
    let step = feed_node(front.first(), part, out, remainder, given)?;
    let end = 1 + step.end;
    let kept = step.kept;
    let typed = type_node(other, front.second(end), &mut remainder[kept..]).ok()?;
    let stop = kept + typed.size;
    if given[..step.size] != remainder[kept..stop] {
        return None;
    }
    Some(Step {
        end: end + typed.end,
        ..step
    })
}

// Feeds the second node of *choose*, which is left alone. Where it begins is known once the first node is typed, whose type is written at
// the end of the room for what is left, where the first node itself would have had room.
#[cycle(feed_each_node)]
fn feed_second_chosen(
    front: NodeFront<'_>,
    part: Input<'_>,
    other: TypeView<'_>,
    out: &mut [u8],
    remainder: &mut [u8],
    given: &mut [u8],
) -> Option<Step>
    requires is_choose { node_kind (node front) ≡ 15 }
    requires rooms { NodeRooms (node front) out.old remainder.old given.old }
    ensures { NodeAnswers (node_width (node front.entry)) (either (tree other.entry) (type part.entry)) (node front.entry) (second_chosen (prefix part.entry)) out.old remainder.old given.old out.new remainder.new given.new result }
{
    let spare = remainder.len() - TypeView::MAX_NODES;
    let typed = type_node(other, front.first(), &mut remainder[spare..]).ok()?;
    let end = 1 + typed.end;
    let step = feed_node(front.second(end), part, out, &mut remainder[..spare], given)?;
    let stop = spare + typed.size;
    if given[..step.size] != remainder[spare..stop] {
        return None;
    }
    Some(Step {
        end: end + step.end,
        ..step
    })
}
