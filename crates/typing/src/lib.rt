// Check's second pass: the type that a node gives, written in preorder, or the first fault.
//
// A type is written on work bytes that may be too short for it: at a node with two parts a fault of the second part comes
// before the size of the type that both give. So every writer here says how long its answer is, and writes it only if there
// is room.
#![tactic(auto)]

ghost use Rattle.std.specs.Prelude.{◌≡◌, ◌⊎◌};
ghost use Rattle.stream.specs.Types.Kinds.{type_arity};
ghost use Rattle.reading.specs.Views.{tree};
ghost use Rattle.node.specs.Nodes.{regroup_right, regroup_left, spread, front};
ghost use Rattle.node.specs.Nodes.Kinds.{node_kind, node_arity};
ghost use Rattle.node.specs.Checking.{gives, typing};
ghost use Rattle.patch_reading.specs.Fronts.{node};
ghost use Rattle.typing.specs.Typing.{limited_size, ended, first_of, second_of, either_of, carried_of, Marks, TypeGiven, NodeTyped, PartsTyped};

use patch_reading::fronts::NodeFront;
use reading::prefixes::VALUE_WIDTH;
use reading::types::{Pieces, TypeView};
use stream::Fault;
use writing::appending::{append, append_kind, within};
use writing::rearranging::{write_left, write_right, write_spread};

// How many bytes the level node has: its kind, and its value.
const LEVEL_WIDTH: usize = 1 + VALUE_WIDTH;

// What a node gives: how many bytes the node has, and how many nodes the type.
#[derive(Clone, Copy)]
pub struct Typed {
    pub end: usize,
    pub size: usize,
}

// "4 if the type it gives is too large".
#[tactic(auto, unfolding(crate::specs::Typing::limited_size, stream::specs::Types::type_limit))]
fn limit(size: usize) -> Result<usize, Fault>
    ensures { result ≡ limited_size size }
{
    if TypeView::MAX_NODES < size {
        return Err(Fault::TypeTooLarge);
    }
    Ok(size)
}

// What is told of a node of `end` bytes, by what the writer of its type tells.
fn ending(end: usize, given: Result<usize, Fault>) -> Result<Typed, Fault>
    ensures { result ≡ ended end given }
{
    let size = given?;
    Ok(Typed { end, size })
}

// Gives a type as it is.
pub fn give_type(ty: TypeView<'_>, out: &mut [u8]) -> Result<usize, Fault>
    ensures { TypeGiven (gives (tree ty.entry)) out.old out.new result }
{
    Ok(append(ty.bytes, 0, out))
}

// Gives the first part of a type of the kind `shape`: nodes 5 and 7.
#[tactic(auto, unfolding(crate::specs::Typing::sized))]
fn give_first(shape: u8, ty: TypeView<'_>, out: &mut [u8]) -> Result<usize, Fault>
    requires { type_arity shape ≡ 2 }
    ensures { TypeGiven (first_of shape (tree ty.entry)) out.old out.new result }
{
    let (first, _) = ty.parts_of(shape).ok_or(Fault::WrongShape)?;
    give_type(first, out)
}

// Gives its second part: nodes 6 and 8.
#[tactic(auto, unfolding(crate::specs::Typing::sized))]
fn give_second(shape: u8, ty: TypeView<'_>, out: &mut [u8]) -> Result<usize, Fault>
    requires { type_arity shape ≡ 2 }
    ensures { TypeGiven (second_of shape (tree ty.entry)) out.old out.new result }
{
    let (_, second) = ty.parts_of(shape).ok_or(Fault::WrongShape)?;
    give_type(second, out)
}

// Gives the type that silent carries.
#[tactic(auto, unfolding(crate::specs::Typing::sized))]
fn give_carried(carried: TypeView<'_>, out: &mut [u8]) -> Result<usize, Fault>
    ensures { TypeGiven (carried_of (tree carried.entry)) out.old out.new result }
{
    if !carried.is_nullable() {
        return Err(Fault::NotNullable);
    }
    give_type(carried, out)
}

// Gives s, (t, r) for the type (s, t), r: 3 3 s t r becomes 3 s 3 t r.
#[tactic(auto, using(crate::proofs::Regrouping::countable), unfolding(crate::specs::Typing::sized, node::specs::Checking::typing))]
pub fn give_regrouped_right(ty: TypeView<'_>, out: &mut [u8]) -> Result<usize, Fault>
    ensures { TypeGiven (typing (tree ty.entry) regroup_right) out.old out.new result }
{
    let (s, t, r) = ty.nested_in_first().ok_or(Fault::WrongShape)?;
    let pieces = Pieces {
        s: s.bytes,
        t: t.bytes,
        r: r.bytes,
    };
    Ok(write_right(3, 3, pieces, out))
}

// Gives (s, t), r for the type s, (t, r): 3 s 3 t r becomes 3 3 s t r.
#[tactic(auto, using(crate::proofs::Regrouping::countable), unfolding(crate::specs::Typing::sized, node::specs::Checking::typing))]
pub fn give_regrouped_left(ty: TypeView<'_>, out: &mut [u8]) -> Result<usize, Fault>
    ensures { TypeGiven (typing (tree ty.entry) regroup_left) out.old out.new result }
{
    let (s, t, r) = ty.nested_in_second(3).ok_or(Fault::WrongShape)?;
    let pieces = Pieces {
        s: s.bytes,
        t: t.bytes,
        r: r.bytes,
    };
    Ok(write_left(3, 3, pieces, out))
}

// Gives (s, t) beside (s, r) for the type s, (t beside r): 3 s 4 t r becomes 4 3 s t 3 s r.
#[tactic(auto, using(crate::proofs::Regrouping::countable), unfolding(crate::specs::Typing::sized, node::specs::Checking::typing))]
pub fn give_spread(ty: TypeView<'_>, out: &mut [u8]) -> Result<usize, Fault>
    ensures { TypeGiven (typing (tree ty.entry) spread) out.old out.new result }
{
    let (s, t, r) = ty.nested_in_second(4).ok_or(Fault::WrongShape)?;
    let pieces = Pieces {
        s: s.bytes,
        t: t.bytes,
        r: r.bytes,
    };
    limit(write_spread(4, 3, pieces, out))
}

// Gives empty, s for the type s.
pub fn give_front(ty: TypeView<'_>, out: &mut [u8]) -> Result<usize, Fault>
    ensures { TypeGiven (typing (tree ty.entry) front) out.old out.new result }
{
    let mut written = append_kind(3, 0, out);
    written = append_kind(0, written, out);
    limit(append(ty.bytes, written, out))
}

// Gives either s or t for the types s and t.
fn give_either(first: TypeView<'_>, second: TypeView<'_>, out: &mut [u8]) -> Result<usize, Fault>
    ensures { TypeGiven (either_of (tree first.entry) (tree second.entry)) out.old out.new result }
{
    let mut written = append_kind(5, 0, out);
    written = append(first.bytes, written, out);
    limit(append(second.bytes, written, out))
}

// Gives either s or t for the type s and the type t that the node carries, or either t or s: nodes 16 and 17.
pub fn give_marked(ty: TypeView<'_>, front: NodeFront<'_>, out: &mut [u8]) -> Result<Typed, Fault>
    requires { Marks (node_kind (node front)) }
    ensures { NodeTyped (tree ty.entry) (node front.entry) out.old out.new result }
{
    let carried = front.carried();
    let end = 1 + carried.size();
    if front.kind() == 16 {
        ending(end, give_either(ty, carried, out))
    } else {
        ending(end, give_either(carried, ty, out))
    }
}

// What a node without parts gives.
fn type_leaf(ty: TypeView<'_>, front: NodeFront<'_>, out: &mut [u8]) -> Result<Typed, Fault>
    requires { node_arity (node_kind (node front)) ≡ 0 }
    ensures { NodeTyped (tree ty.entry) (node front.entry) out.old out.new result }
{
    match front.kind() {
        0 => ending(1, give_type(ty, out)),
        1 => {
            let carried = front.carried();
            ending(1 + carried.size(), give_carried(carried, out))
        }
        2 => ending(1, Ok(append_kind(1, 0, out))),
        3 => ending(LEVEL_WIDTH, Ok(append_kind(2, 0, out))),
        5 => ending(1, give_first(4, ty, out)),
        6 => ending(1, give_second(4, ty, out)),
        7 => ending(1, give_first(3, ty, out)),
        8 => ending(1, give_second(3, ty, out)),
        11 => ending(1, give_regrouped_right(ty, out)),
        12 => ending(1, give_regrouped_left(ty, out)),
        13 => ending(1, give_spread(ty, out)),
        14 => ending(1, give_front(ty, out)),
        // Of the kinds without parts these are left.
        _ => give_marked(ty, front, out),
    }
}

// What a node gives on a type. The parts of `both` and `then` write theirs behind one kind byte; what the first part of `chain` gives
// is the input of the second; those of `choose` give the same.
#[cycle(type_each_node)]
pub fn type_node(ty: TypeView<'_>, front: NodeFront<'_>, out: &mut [u8]) -> Result<Typed, Fault>
    ensures { NodeTyped (tree ty.entry) (node front.entry) out.old out.new result }
{
    match front.kind() {
        4 => type_parts(4, ty, ty, front, out),
        9 => {
            let (first, second) = ty.parts_of(3).ok_or(Fault::WrongShape)?;
            type_parts(3, first, second, front, out)
        }
        10 => {
            let mut middle = [0u8; 255];
            let first = type_node(ty, front.first(), &mut middle)?;
            let given = TypeView {
                bytes: &middle[..first.size],
            };
            let end = 1 + first.end;
            let second = type_node(given, front.second(end), out)?;
            Ok(Typed {
                end: end + second.end,
                size: second.size,
            })
        }
        15 => type_choose(ty, front, out),
        // The kinds without parts.
        _ => type_leaf(ty, front, out),
    }
}

// The type of the kind `kind` that both parts of the node give together, one on the type `first`, one on `second`.
#[cycle(type_each_node)]
fn type_parts(
    kind: u8,
    first: TypeView<'_>,
    second: TypeView<'_>,
    front: NodeFront<'_>,
    out: &mut [u8],
) -> Result<Typed, Fault>
    requires forks { (kind ≡ 3) ⊎ (kind ≡ 4) }
    requires two_parts { node_arity (node_kind (node front)) ≡ 2 }
    ensures { PartsTyped kind (tree first.entry) (tree second.entry) (node front.entry) out.old out.new result }
{
    let before = append_kind(kind, 0, out);
    let start = within(before, out.len());
    let one = type_node(first, front.first(), &mut out[start..])?;
    let end = 1 + one.end;
    let written = before + one.size;
    let rest = within(written, out.len());
    let other = type_node(second, front.second(end), &mut out[rest..])?;
    ending(end + other.end, limit(written + other.size))
}

// The type that both parts of choose give, each on its part of the type. They are written on work bytes that have room for every
// type, since they are compared whole, and `out` may be too short for them. A function of its own, so that the nodes of other kinds
// need no stack for these bytes; Feed calls it too, as the compiler takes a function with one caller into its caller.
#[cycle(type_each_node)]
pub fn type_choose(ty: TypeView<'_>, front: NodeFront<'_>, out: &mut [u8]) -> Result<Typed, Fault>
    requires { node_kind (node front) ≡ 15 }
    ensures { NodeTyped (tree ty.entry) (node front.entry) out.old out.new result }
{
    let (first, second) = ty.parts_of(5).ok_or(Fault::WrongShape)?;
    let mut one = [0u8; 255];
    let first_typed = type_node(first, front.first(), &mut one)?;
    let end = 1 + first_typed.end;
    let mut other = [0u8; 255];
    let second_typed = type_node(second, front.second(end), &mut other)?;
    let given = &one[..first_typed.size];
    if given != &other[..second_typed.size] {
        return Err(Fault::OutputsDiffer);
    }
    Ok(Typed {
        end: end + second_typed.end,
        size: append(given, 0, out),
    })
}
