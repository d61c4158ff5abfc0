// Slices of a tree with a fork in one of its parts, which regroup and spread take apart: s, t and r, once s has come whole. The bytes of the
// prefix tell where they are; its type is not asked for.
ghost use Rattle.std.specs.Prelude.{◌≡◌};
ghost use Rattle.reading.specs.Nesting.{FirstCut, SecondCut};
ghost use Rattle.reading.specs.PieceViews.{SomeCut, CutBy, SomeBehind, CutBehind};

use crate::inputs::Nested;
use crate::prefixes::skip_prefix;
use crate::types::Pieces;

// The pieces, of which t and r are what is `behind` s.
fn pieces_behind<'a>(kind: u8, s: &'a [u8], behind: &'a [u8]) -> Nested<'a>
    requires { SomeBehind kind behind.now }
    ensures { CutBehind kind s.now behind.now result }
{
    let end = if kind == 5 {
        behind.len()
    } else {
        skip_prefix(behind, 0)
    };
    let (t, r) = behind.split_at(end);
    Nested {
        kind,
        pieces: Pieces { s, t, r },
    }
}

// The pieces of a slice of (s, t), r, if s has come: 5 6 s t and 6 6 s t r.
pub fn crossed_in_first<'a>(slice: &'a [u8]) -> Option<Nested<'a>>
    requires { SomeCut FirstCut slice.now }
    ensures { CutBy FirstCut slice.now result }
{
    if slice[1] == 5 {
        return None;
    }
    let second = skip_prefix(slice, 2);
    Some(pieces_behind(slice[0], &slice[2..second], &slice[second..]))
}

// The pieces of a slice of s and then t and r, if s has come: 6 s 5 t, 6 s 6 t r and 6 s 7 t r.
pub fn crossed_in_second<'a>(slice: &'a [u8]) -> Option<Nested<'a>>
    requires { SomeCut SecondCut slice.now }
    ensures { CutBy SecondCut slice.now result }
{
    if slice[0] == 5 {
        return None;
    }
    let gap = skip_prefix(slice, 1);
    Some(pieces_behind(slice[gap], &slice[1..gap], &slice[gap + 1..]))
}
