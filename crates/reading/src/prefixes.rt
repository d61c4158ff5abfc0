// Slices as bytes: whether a file is a slice of a type, and what the operations have to know of one.
ghost use Rattle.std.specs.Prelude.{◌≡◌, ◌+◌, ◌≤◌, ◌<◌, length};
ghost use Rattle.stream.specs.Types.{type_limit};
ghost use Rattle.stream.specs.Bounds.{slice_file_limit};
ghost use Rattle.stream.specs.Prefixes.Kinds.{prefix_arity, root_width, root_arrivals};
ghost use Rattle.reading.specs.SliceReads.{type_kind_of, is_unfinished, kind_brings_nothing, belongs_at, first_complete, SomePrefixAt, PrefixEnds, CompleteAt, CompleteEnds, first_known, crossed_known, both_known, known_after, SumsFit, SumsFitIfKnown};
ghost use Rattle.reading.specs.PrefixBytes.{SomePrefix, OpensBy, ArrivalsBy};
ghost use Rattle.reading.specs.Views.{tree};

use crate::types::TypeView;
use stream::Fault;

// No slice file is longer: the count, a byte for each of 255 nodes, and two for each of at most 128 levels.
pub const MAX_SLICE_FILE: usize = 513;

// How many bytes a level's value takes.
pub const VALUE_WIDTH: usize = 2;

// What is known of a prefix that was read against its type: whether it is complete, how many nodes the type has that it
// leaves, how many cues and levels came in it, and by how many bytes its join with a later prefix is shorter than the two. The
// lengths stand apart: side by side they would be loaded as one just after they were stored one by one, which costs a tenth of a
// small call.
#[derive(Clone, Copy)]
pub struct Known {
    pub remains: usize,
    pub complete: bool,
    pub arrived: u32,
    pub overlap: usize,
}

// The kind of type that a slice's kind belongs to.
pub fn type_kind_of(kind: u8) -> u8
    ensures { result ≡ type_kind_of kind }
{
    match kind {
        0 => 0,
        1 => 1,
        2 => 1,
        3 => 2,
        4 => 2,
        5 => 3,
        6 => 3,
        7 => 4,
        8 => 5,
        9 => 5,
        10 => 5,
        // No slice's kind.
        11..=255 => 4,
    }
}

// Whether a slice's kind keeps it from being complete.
pub fn is_unfinished(kind: u8) -> bool
    ensures { result ≡ is_unfinished kind }
{
    match kind {
        0 => false,
        1 => true,
        2 => false,
        3 => true,
        4 => false,
        5 => true,
        6..=7 => false,
        8 => true,
        9..=10 => false,
        // No slice's kind.
        11..=255 => false,
    }
}

// Whether a slice's kind can stand in an empty slice: no cue and no level has come, nothing is crossed or chosen.
pub fn brings_nothing(kind: u8) -> bool
    ensures { result ≡ kind_brings_nothing kind }
{
    match kind {
        0..=1 => true,
        2 => false,
        3 => true,
        4 => false,
        5 => true,
        6 => false,
        7..=8 => true,
        9..=10 => false,
        // No slice's kind.
        11..=255 => false,
    }
}

// How many parts a slice's kind has; this is asked here alone.
pub fn prefix_arity(kind: u8) -> usize
    ensures { result ≡ prefix_arity kind }
{
    match kind {
        0..=4 => 0,
        5 => 1,
        6..=7 => 2,
        8 => 0,
        9..=10 => 1,
        // No slice's kind.
        11..=255 => 2,
    }
}

// How many bytes a node of a slice takes without its parts: a level that has come has its value behind it.
pub fn root_width(kind: u8) -> usize
    ensures { result ≡ root_width kind }
{
    match kind {
        0..=3 => 1,
        4 => 1 + VALUE_WIDTH,
        5..=10 => 1,
        // No slice's kind.
        11..=255 => 1,
    }
}

// How many arrivals a node of a slice is without its parts: a cue or a level that has come is one.
pub fn arrivals_of(kind: u8) -> u32
    ensures { result ≡ root_arrivals kind }
{
    match kind {
        0..=1 => 0,
        2 => 1,
        3 => 0,
        4 => 1,
        5..=10 => 0,
        // No slice's kind.
        11..=255 => 0,
    }
}

// Whether a slice's kind may stand where a prefix of a type of kind `ty` is owed, `complete` if it has to be.
pub fn belongs(ty: u8, kind: u8, complete: bool) -> bool
    ensures { result ≡ belongs_at ty kind complete }
{
    if ty != type_kind_of(kind) {
        return false;
    }
    if complete {
        return !is_unfinished(kind);
    }
    true
}

// Where the prefix that stands at `place` ends. A level's value is passed in a branch of its own, so that the next place does not
// wait for the kind.
pub fn skip_prefix(slice: &[u8], place: usize) -> usize
    requires { SomePrefixAt slice.now place }
    ensures { PrefixEnds slice.now place result }
{
    let mut owed: usize = 1;
    let mut end = place;
    while 0 < owed {
        let kind = slice[end];
        end += 1;
        let parts = prefix_arity(kind);
        if parts < 2 {
            if parts == 0 {
                owed -= 1;
                if kind == 4 {
                    end += VALUE_WIDTH;
                }
            }
        } else {
            owed += parts - 1;
        }
    }
    end
}

// Where the complete prefix at `place` ends, of the type `ty`. By the type, where it tells: that takes fewer turns than going through the
// slice. What stands behind the prefix is not looked at.
#[inline(always)]
pub fn skip_complete(ty: TypeView<'_>, slice: &[u8], place: usize) -> usize
    requires { CompleteAt (tree ty) slice.now place }
    ensures { CompleteEnds (tree ty.entry) slice.now place result }
{
    match ty.complete_width() {
        Some(width) => place + width,
        None => skip_prefix(slice, place),
    }
}

// Whether the prefix in these bytes opens a node that waits: it brings something, or it is complete. In one that brings nothing each byte
// is a kind, and it is complete if none of them keeps it from that. Its type is not asked for; of bytes that are no prefix nothing is said.
#[tactic(auto, using(crate::proofs::OpeningScan::tells_all, crate::proofs::OpeningScan::scan_step, crate::proofs::OpeningScan::scan_done))]
pub fn opens(prefix: &[u8]) -> bool
    ensures { OpensBy prefix.now result }
{
    let mut unfinished = false;
    for kind in prefix {
        if !brings_nothing(*kind) {
            return true;
        }
        unfinished |= is_unfinished(*kind);
    }
    !unfinished
}

// How many cues and levels came in the prefix in these bytes, which are no more than a slice file has. Its type is not asked for. Each has a
// branch of its own: by `arrivals_of` and one branch for a level's value the compiler makes no branch at all, and every turn then waits for
// the kind that the turn before has loaded.
pub fn count_arrivals(prefix: &[u8]) -> u32
    requires some_prefix { SomePrefix prefix.now }
    requires few { length prefix.now ≤ slice_file_limit }
    ensures { ArrivalsBy prefix.now result }
{
    let mut count: u32 = 0;
    let mut next = 0;
    let end = prefix.len();
    while next < end {
        let kind = prefix[next];
        next += 1;
        if kind == 2 {
            count += 1;
        } else if kind == 4 {
            count += 1;
            next += VALUE_WIDTH;
        }
    }
    count
}

// Of a sequence whose first part is still coming, from that part and from the size `second` of the second part's type.
#[tactic(auto, using(stream::proofs::Types::Laws::limit_is))]
pub fn in_first(first: Known, second: usize) -> Known
    requires second_bound { first.remains + second < type_limit }
    requires overlap_lt_type_limit { first.overlap < type_limit }
    ensures { result ≡ first_known first second }
{
    Known {
        complete: false,
        remains: 1 + first.remains + second,
        arrived: first.arrived,
        overlap: 1 + first.overlap,
    }
}

// Of a sequence whose first part was crossed, from both parts: a join leaves the first part as it is, so what is known of the second
// is known of both; only what came in the first has come as well.
#[tactic(auto, using(stream::proofs::Types::Laws::limit_is))]
pub fn crossed_known(first: Known, second: Known) -> Known
    requires { SumsFit first second }
    ensures { result ≡ crossed_known first second }
{
    Known {
        complete: second.complete,
        remains: second.remains,
        arrived: first.arrived + second.arrived,
        overlap: second.overlap,
    }
}

// Of two prefixes side by side, from both.
#[tactic(auto, using(stream::proofs::Types::Laws::limit_is))]
pub fn both_known(first: Known, second: Known) -> Known
    requires { SumsFit first second }
    ensures { result ≡ both_known first second }
{
    Known {
        complete: first.complete && second.complete,
        remains: 1 + first.remains + second.remains,
        arrived: first.arrived + second.arrived,
        overlap: 1 + first.overlap + second.overlap,
    }
}

// `crossed_known` from what became of the second part, whose fault is handed on: of the first nothing is asked then.
pub fn crossed(first: Known, second: Result<Known, Fault>) -> Result<Known, Fault>
    requires { SumsFitIfKnown first second }
    ensures { result ≡ known_after crossed_known first second }
{
    Ok(crossed_known(first, second?))
}

// `both_known` from what became of the second prefix, likewise.
pub fn beside(first: Known, second: Result<Known, Fault>) -> Result<Known, Fault>
    requires { SumsFitIfKnown first second }
    ensures { result ≡ known_after both_known first second }
{
    Ok(both_known(first, second?))
}

// Whether the first part under a slice's kind has to be complete: a crossed one has, one that is still coming need not.
pub fn first_complete(kind: u8, complete: bool) -> bool
    ensures { result ≡ first_complete kind complete }
{
    match kind {
        // Kinds without parts.
        0..=4 => complete,
        5 => false,
        6 => true,
        7 => complete,
        // A kind without parts.
        8 => complete,
        9..=10 => complete,
        // No slice's kind.
        11..=255 => complete,
    }
}
