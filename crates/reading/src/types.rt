// Types as values: a type in its bytes, of which every clause speaks as of a tree.
ghost use Rattle.std.specs.Prelude.{◌≡◌, [], ◌+◌, length};
ghost use Rattle.stream.specs.Types.{Small};
ghost use Rattle.stream.specs.TypeFiles.{type_bytes, type_of, read_type};
ghost use Rattle.std.specs.List.{list_all};
ghost use Rattle.reading.specs.Scans.{is_silent};
ghost use Rattle.stream.specs.Types.Kinds.{type_arity};
ghost use Rattle.reading.specs.Sections.{end_of};
ghost use Rattle.reading.specs.TypeReads.{SomeTypeAt, TypeEnds, NullableEnds};

use crate::prefixes::VALUE_WIDTH;
use stream::Fault;

// The bytes of one type, and no others.
#[derive(Clone, Copy)]
pub struct TypeView<'a> {
    pub bytes: &'a [u8],
    pub ghost whole: { type_bytes (type_of bytes.now) [] ≡ bytes.now },
    pub ghost small: { Small (type_of bytes.now) },
}

// The bytes of three trees, s, t and r: of types, or of prefixes.
#[derive(Clone, Copy)]
pub struct Pieces<'a> {
    pub s: &'a [u8],
    pub t: &'a [u8],
    pub r: &'a [u8],
}

impl<'a> TypeView<'a> {
    ghost use Rattle.stream.specs.Types.{size, kind, first_part, second_part, nullable};
    ghost use Rattle.stream.specs.Types.Kinds.{Fork};
    ghost use Rattle.reading.specs.SliceReads.{CompleteWide};
    ghost use Rattle.reading.specs.Views.{tree, PartsOf, FirstNested, SecondNested};

    // "At most 255 nodes in a type".
    pub const MAX_NODES: usize = 255;

    // No type file is longer: the count, and a byte for each node.
    pub const MAX_FILE: usize = 257;

    // The view of these bytes, which have to be those of a type.
    pub fn new(bytes: &'a [u8]) -> TypeView<'a>
        requires whole { type_bytes (type_of bytes.now) [] ≡ bytes.now }
        requires small { Small (type_of bytes.now) }
        ensures { tree result ≡ type_of bytes.now }
    {
        TypeView { bytes }
    }

    // The kind of the root.
    #[tactic(auto, using(crate::proofs::TypeViews::not_empty, crate::proofs::TypeViews::kind_is))]
    pub fn kind(self) -> u8
        ensures { result ≡ kind (tree self.entry) }
    {
        self.bytes[0]
    }

    // How many nodes the type has.
    #[tactic(auto, using(crate::proofs::TypeViews::size_is))]
    pub fn size(self) -> usize
        ensures { result ≡ size (tree self.entry) }
    {
        self.bytes.len()
    }

    // Where the first part ends. Parts come in pairs, so wherever one byte is owed two are, and two in one turn take little more time
    // than one: a small node on a large type spends its time here. Counting the pairs saves an instruction a byte.
    #[tactic(auto, using(crate::proofs::FirstPart::root_passed, crate::proofs::FirstPart::pair_passed, crate::proofs::FirstPart::reached))]
    fn first_end(self) -> usize
        requires { Fork (tree self) }
        ensures { result ≡ 1 + size (first_part (tree self.entry)) }
    {
        let mut pairs = type_arity(self.bytes[1]) / 2;
        let mut end = 2;
        while 0 < pairs {
            pairs = pairs - 1
                + type_arity(self.bytes[end]) / 2
                + type_arity(self.bytes[end + 1]) / 2;
            end += 2;
        }
        end
    }

    // The two parts of a type of the kind 3, 4 or 5.
    #[inline(always)]
    #[tactic(auto, using(crate::proofs::TypeViews::inside))]
    pub fn parts(self) -> (TypeView<'a>, TypeView<'a>)
        requires { Fork (tree self) }
        ensures first { tree result.0 ≡ first_part (tree self.entry) }
        ensures second { tree result.1 ≡ second_part (tree self.entry) }
    {
        let end = self.first_end();
        (
            TypeView {
                bytes: &self.bytes[1..end],
            },
            TypeView {
                bytes: &self.bytes[end..],
            },
        )
    }

    // The parts of a type of the kind `kind`, none of another.
    pub fn parts_of(self, kind: u8) -> Option<(TypeView<'a>, TypeView<'a>)>
        requires { type_arity kind ≡ 2 }
        ensures { PartsOf kind (tree self.entry) result }
    {
        if self.kind() != kind {
            return None;
        }
        Some(self.parts())
    }

    // Whether the type is nullable: only kinds 0 and 4 stand in one that is.
    #[tactic(auto, using(crate::proofs::TypeViews::nullable_scan))]
    pub fn is_nullable(self) -> bool
        ensures { result ≡ nullable (tree self.entry) }
    {
        all_silent(self.bytes)
    }

    // How many bytes every complete prefix of the type has: one for each of its nodes, and the value of each level, if no choice stands in
    // it. Both are counted in a byte, of which a processor counts many in one turn.
    #[tactic(auto, using(crate::proofs::CompleteWidth::kinds_step, crate::proofs::CompleteWidth::kinds_done, crate::proofs::TypeViews::size_is, stream::proofs::Types::Laws::limit_is))]
    pub fn complete_width(self) -> Option<usize>
        ensures { CompleteWide (tree self.entry) result }
    {
        let mut levels: u8 = 0;
        let mut choices: u8 = 0;
        for kind in self.bytes {
            levels += (*kind == 2) as u8;
            choices += (*kind == 5) as u8;
        }
        if 0 < choices {
            return None;
        }
        Some(self.bytes.len() + VALUE_WIDTH * levels as usize)
    }

    // s, t and r of (s, t), r; none of another type. By the bytes 3 3 s t r, in which each part is passed once: to take the first part and
    // then its parts would pass s twice.
    #[tactic(auto, using(crate::proofs::TypeViews::not_empty, crate::proofs::TypeViews::kind_is))]
    pub fn nested_in_first(self) -> Option<(TypeView<'a>, TypeView<'a>, TypeView<'a>)>
        ensures { FirstNested (tree self.entry) result }
    {
        if self.kind() != 3 {
            return None;
        }
        if self.bytes[1] != 3 {
            return None;
        }
        let second = skip_type(self.bytes, 2);
        let third = skip_type(self.bytes, second);
        Some((
            TypeView {
                bytes: &self.bytes[2..second],
            },
            TypeView {
                bytes: &self.bytes[second..third],
            },
            TypeView {
                bytes: &self.bytes[third..],
            },
        ))
    }

    // s, t and r of s and then t and r, which are the parts of a type of the kind `kind`; none of another type.
    pub fn nested_in_second(self, kind: u8) -> Option<(TypeView<'a>, TypeView<'a>, TypeView<'a>)>
        requires { type_arity kind ≡ 2 }
        ensures { SecondNested kind (tree self.entry) result }
    {
        let (s, second) = self.parts_of(3)?;
        let (t, r) = second.parts_of(kind)?;
        Some((s, t, r))
    }
}

// Whether each byte is the kind of a node in a nullable type.
fn all_silent(kinds: &[u8]) -> bool
    ensures { result ≡ list_all is_silent kinds.now }
{
    kinds.iter().all(|kind| *kind == 0 || *kind == 4)
}

// How many parts a type's kind has; this is asked here alone. The quotient is that of kinds 0 to 5: known to be 0 or 1, it takes a
// comparison, where that of any byte would take a multiplication. Neither takes a jump.
pub fn type_arity(kind: u8) -> usize
    ensures { result ≡ type_arity kind }
{
    match kind {
        0..=5 => kind as usize / 3 * 2,
        // No type's kind.
        6..=255 => 2,
    }
}

// Where the type at the front of the bytes ends. What stands behind the type is not looked at.
pub fn type_end(bytes: &[u8]) -> Result<usize, Fault>
    ensures { result ≡ end_of (length bytes.now) (read_type bytes.now) }
{
    let mut owed: usize = 1;
    let mut at: usize = 0;
    while 0 < owed {
        // The limit is tried before the end of the bytes.
        if at == TypeView::MAX_NODES {
            return Err(Fault::TypeTooLarge);
        }
        if at == bytes.len() {
            return Err(Fault::CutShort);
        }
        let kind = bytes[at];
        if 5 < kind {
            return Err(Fault::Unlisted);
        }
        owed = owed - 1 + type_arity(kind);
        at += 1;
    }
    Ok(at)
}

// Where the type that stands at `at` ends. Parts come in pairs, so wherever one byte is owed two are, and two in one turn take
// little more time than one: a small node on a large type spends its time here. Counting the pairs saves an instruction a byte.
pub fn skip_type(types: &[u8], at: usize) -> usize
    requires { SomeTypeAt types.now at }
    ensures { TypeEnds types.now at result }
{
    let mut pairs = type_arity(types[at]) / 2;
    let mut end = at + 1;
    while 0 < pairs {
        pairs = pairs - 1 + type_arity(types[end]) / 2 + type_arity(types[end + 1]) / 2;
        end += 2;
    }
    end
}

// Where the type that stands at `at` ends if it is nullable, none if it is not, in one pass: only kinds 0 and 4 stand in one that is. What
// stands behind the type is not looked at.
pub fn nullable_end(types: &[u8], at: usize) -> Option<usize>
    requires { SomeTypeAt types.now at }
    ensures { NullableEnds types.now at result }
{
    let mut owed: usize = 1;
    let mut end = at;
    while 0 < owed {
        let kind = types[end];
        if kind != 0 && kind != 4 {
            return None;
        }
        owed = owed - 1 + type_arity(kind);
        end += 1;
    }
    Some(end)
}
