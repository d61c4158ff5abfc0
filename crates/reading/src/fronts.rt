// A type as a value where it is not yet known how far it reaches: the front of some bytes, of which every clause speaks as of a tree.
ghost use Rattle.std.specs.Prelude.{◌≡◌, ◌+◌, drop};
ghost use Rattle.stream.specs.Types.{size, Small};
ghost use Rattle.stream.specs.TypeFiles.{type_bytes, type_of};

use crate::types::{TypeView, skip_type};

// Bytes that begin with a type; what is behind it is free. Whoever goes through both parts of a type comes to where the first ends, and
// need not look for it before.
#[derive(Clone, Copy)]
pub struct TypeFront<'a> {
    pub bytes: &'a [u8],
    pub ghost begins: { type_bytes (type_of bytes.now) (drop (size (type_of bytes.now)) bytes.now) ≡ bytes.now },
    pub ghost small: { Small (type_of bytes.now) },
}

impl<'a> TypeFront<'a> {
    ghost use Rattle.stream.specs.Types.{kind, first_part, second_part};
    ghost use Rattle.stream.specs.Types.Kinds.{Fork};
    ghost use Rattle.reading.specs.Views.{tree};
    ghost use Rattle.reading.specs.Fronts.{front_tree};

    // A view's bytes, with nothing behind them.
    #[tactic(auto, using(crate::proofs::TypeFronts::all_begins))]
    pub fn of(ty: TypeView<'a>) -> TypeFront<'a>
        ensures { front_tree result ≡ tree ty.entry }
    {
        TypeFront { bytes: ty.bytes }
    }

    #[tactic(auto, using(crate::proofs::TypeFronts::not_empty, crate::proofs::TypeFronts::kind_is))]
    pub fn kind(self) -> u8
        ensures { result ≡ kind (front_tree self.entry) }
    {
        self.bytes[0]
    }

    // The first part of a type of the kind 3, 4 or 5.
    #[tactic(auto, using(crate::proofs::TypeFronts::not_empty, crate::proofs::TypeFronts::from_on))]
    pub fn first(self) -> TypeFront<'a>
        requires { Fork (front_tree self) }
        ensures part { front_tree result ≡ first_part (front_tree self.entry) }
        ensures place { result.bytes.now ≡ drop 1 self.entry.bytes.now }
    {
        TypeFront {
            bytes: &self.bytes[1..],
        }
    }

    // The second part, which stands where the first ends.
    #[tactic(auto, using(crate::proofs::TypeFronts::second_inside, crate::proofs::TypeFronts::from_on))]
    pub fn second(self, end: usize) -> TypeFront<'a>
        requires fork { Fork (front_tree self) }
        requires ends { end ≡ 1 + size (first_part (front_tree self)) }
        ensures part { front_tree result ≡ second_part (front_tree self.entry) }
        ensures place { result.bytes.now ≡ drop end self.entry.bytes.now }
    {
        TypeFront {
            bytes: &self.bytes[end..],
        }
    }

    // The same from the bytes behind the first part.
    pub fn second_from(self, behind: &'a [u8]) -> TypeFront<'a>
        requires fork { Fork (front_tree self) }
        requires place { behind.now ≡ drop (1 + size (first_part (front_tree self))) self.bytes.now }
        ensures part { front_tree result ≡ second_part (front_tree self.entry) }
        ensures place { result.bytes.now ≡ behind.now }
    {
        TypeFront { bytes: behind }
    }

    // Where the first part ends, if that is not gone through.
    pub fn first_end(self) -> usize
        requires { Fork (front_tree self) }
        ensures { result ≡ 1 + size (first_part (front_tree self.entry)) }
    {
        skip_type(self.bytes, 1)
    }

    // The type, and the bytes behind it.
    pub fn split(self) -> (TypeView<'a>, &'a [u8])
        ensures whole { tree result.0 ≡ front_tree self.entry }
        ensures behind { result.1.now ≡ drop (size (front_tree self.entry)) self.entry.bytes.now }
    {
        let (bytes, behind) = self.bytes.split_at(skip_type(self.bytes, 0));
        (TypeView { bytes }, behind)
    }
}
