// Inputs as values: a type and a prefix of it in their bytes, of which every clause speaks as of a tree and a prefix of it.
ghost use Rattle.std.specs.Prelude.{◌≡◌, true, [], ◌+◌};
ghost use Rattle.stream.specs.SliceFiles.{prefix_bytes, prefix_of};
ghost use Rattle.stream.specs.Prefixes.Functions.{fits};
ghost use Rattle.reading.specs.Views.{tree};

use crate::nested::{crossed_in_first, crossed_in_second};
use crate::prefixes::{count_arrivals, opens, skip_complete, skip_prefix};
use crate::types::{Pieces, TypeView};

// The bytes of a type, and of a prefix of it.
#[derive(Clone, Copy)]
pub struct Input<'a> {
    pub ty: TypeView<'a>,
    pub slice: &'a [u8],
    pub ghost whole: { prefix_bytes (prefix_of (tree ty) slice.now) [] ≡ slice.now },
    pub ghost is_prefix: { fits (tree ty) (prefix_of (tree ty) slice.now) ≡ true },
}

// How an input is cut into those of its parts, by the kind of its prefix.
#[derive(Clone, Copy)]
pub enum Parts<'a> {
    Leaf,
    Coming(Input<'a>, TypeView<'a>),
    Crossed(Input<'a>, Input<'a>),
    Beside(Input<'a>, Input<'a>),
    NoneChosen(TypeView<'a>, TypeView<'a>),
    FirstChosen(Input<'a>, TypeView<'a>),
    SecondChosen(Input<'a>, TypeView<'a>),
}

// The pieces of the slice of a tree with a fork in one of its parts, once s has come whole: `kind` is the kind of t and r as one tree
// behind s. Of r there is nothing yet if it is 5.
#[derive(Clone, Copy)]
pub struct Nested<'a> {
    pub kind: u8,
    pub pieces: Pieces<'a>,
}

impl<'a> Input<'a> {
    ghost use Rattle.stream.specs.Prefixes.{arrivals};
    ghost use Rattle.stream.specs.Prefixes.Functions.{opens};
    ghost use Rattle.stream.specs.Prefixes.Kinds.{prefix_kind, prefix_arity, piece};
    ghost use Rattle.stream.specs.Types.{first_part, second_part};
    ghost use Rattle.reading.specs.Nesting.{FirstCut, SecondCut};
    ghost use Rattle.reading.specs.PieceViews.{HowCut, CutInto};
    ghost use Rattle.reading.specs.InputViews.{type, prefix, MakeUp};
    ghost use Rattle.reading.specs.SliceReads.{prefix_width};

    // The kind of the prefix.
    #[tactic(auto, using(crate::proofs::InputViews::not_empty, crate::proofs::InputViews::kind_is))]
    pub fn kind(self) -> u8
        ensures { result ≡ prefix_kind (prefix self.entry) }
    {
        self.slice[0]
    }

    // Where the first of two parts of the prefix ends, whose type is `first`. By the type if it was crossed, and so is complete.
    #[tactic(auto, using(crate::proofs::InputViews::not_empty, crate::proofs::InputViews::kind_is))]
    fn first_stop(self, first: TypeView<'a>) -> usize
        requires two { prefix_arity (prefix_kind (prefix self)) ≡ 2 }
        requires first { tree first ≡ first_part (type self) }
        ensures { result ≡ 1 + prefix_width (piece 0 (prefix self.entry)) }
    {
        if self.slice[0] == 6 {
            return skip_complete(first, self.slice, 1);
        }
        skip_prefix(self.slice, 1)
    }

    // Two inputs, of a prefix with two parts.
    #[inline(always)]
    #[tactic(auto, using(crate::proofs::InputViews::fork, crate::proofs::InputViews::inside))]
    pub fn halves(self) -> (Input<'a>, Input<'a>)
        requires { prefix_arity (prefix_kind (prefix self)) ≡ 2 }
        ensures first_type { type result.0 ≡ first_part (type self.entry) }
        ensures first { prefix result.0 ≡ piece 0 (prefix self.entry) }
        ensures second_type { type result.1 ≡ second_part (type self.entry) }
        ensures second { prefix result.1 ≡ piece 1 (prefix self.entry) }
    {
        let (first, second) = self.ty.parts();
        let stop = self.first_stop(first);
        (
            Input {
                ty: first,
                slice: &self.slice[1..stop],
            },
            Input {
                ty: second,
                slice: &self.slice[stop..],
            },
        )
    }

    // The input of the one part of the prefix, which is of the type `ty`.
    #[tactic(auto, using(crate::proofs::InputViews::not_empty))]
    fn only(self, ty: TypeView<'a>) -> Input<'a>
        requires one { prefix_arity (prefix_kind (prefix self)) ≡ 1 }
        requires of_part { fits (tree ty) (piece 0 (prefix self)) ≡ true }
        ensures of_type { type result ≡ tree ty.entry }
        ensures of_prefix { prefix result ≡ piece 0 (prefix self.entry) }
    {
        Input {
            ty,
            slice: &self.slice[1..],
        }
    }

    // The input by its cases. Whoever asks is after one or two of them: where this is put in its place, the others go, and the parts need
    // not be handed over.
    #[inline(always)]
    pub fn parts(self) -> Parts<'a>
        ensures { MakeUp result (type self.entry) (prefix self.entry) }
    {
        match self.kind() {
            5 => {
                let (first, second) = self.ty.parts();
                Parts::Coming(self.only(first), second)
            }
            6 => {
                let (first, second) = self.halves();
                Parts::Crossed(first, second)
            }
            7 => {
                let (first, second) = self.halves();
                Parts::Beside(first, second)
            }
            8 => {
                let (first, second) = self.ty.parts();
                Parts::NoneChosen(first, second)
            }
            9 => {
                let (first, second) = self.ty.parts();
                Parts::FirstChosen(self.only(first), second)
            }
            10 => {
                let (first, second) = self.ty.parts();
                Parts::SecondChosen(self.only(second), first)
            }
            _ => Parts::Leaf,
        }
    }

    // Whether the prefix opens a node that waits.
    #[inline(always)]
    pub fn opens(self) -> bool
        ensures { result ≡ opens (prefix self.entry) }
    {
        opens(self.slice)
    }

    // How many cues and levels came in the prefix.
    #[inline(always)]
    #[tactic(auto, using(crate::proofs::InputViews::slice_few))]
    pub fn arrivals(self) -> u32
        ensures { result ≡ arrivals (prefix self.entry) }
    {
        count_arrivals(self.slice)
    }

    // The pieces of a slice of (s, t), r, if s has come: 5 6 s t and 6 6 s t r.
    #[inline(always)]
    pub fn crossed_in_first(self) -> Option<Nested<'a>>
        requires { HowCut FirstCut (prefix self) }
        ensures { CutInto FirstCut (prefix self.entry) result }
    {
        crossed_in_first(self.slice)
    }

    // The pieces of a slice of s and then t and r, if s has come: 6 s 5 t, 6 s 6 t r and 6 s 7 t r.
    #[inline(always)]
    pub fn crossed_in_second(self) -> Option<Nested<'a>>
        requires { HowCut SecondCut (prefix self) }
        ensures { CutInto SecondCut (prefix self.entry) result }
    {
        crossed_in_second(self.slice)
    }
}
