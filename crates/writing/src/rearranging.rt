// Pieces of a nested tree, written in another order, as regroup and spread do it: for types and for slices alike, since they differ
// in their kinds alone. As in `appending`, there may be no room.
ghost use Rattle.writing.specs.Reordering.{regrouped_right, regrouped_left, spread_out};
ghost use Rattle.writing.specs.Rearranging.{Countable, Rearranged};

use crate::appending::{append, append_kind};
use reading::types::Pieces;

// `outer` s `inner` t r.
pub fn write_right(outer: u8, inner: u8, pieces: Pieces<'_>, out: &mut [u8]) -> usize
    requires { Countable pieces }
    ensures { Rearranged (regrouped_right outer inner) pieces.entry out.old out.new result }
{
    let mut written = append_kind(outer, 0, out);
    written = append(pieces.s, written, out);
    written = append_kind(inner, written, out);
    written = append(pieces.t, written, out);
    append(pieces.r, written, out)
}

// `outer` `inner` s t r.
pub fn write_left(outer: u8, inner: u8, pieces: Pieces<'_>, out: &mut [u8]) -> usize
    requires { Countable pieces }
    ensures { Rearranged (regrouped_left outer inner) pieces.entry out.old out.new result }
{
    let mut written = append_kind(outer, 0, out);
    written = append_kind(inner, written, out);
    written = append(pieces.s, written, out);
    written = append(pieces.t, written, out);
    append(pieces.r, written, out)
}

// `outer` `inner` s t `inner` s r.
pub fn write_spread(outer: u8, inner: u8, pieces: Pieces<'_>, out: &mut [u8]) -> usize
    requires { Countable pieces }
    ensures { Rearranged (spread_out outer inner) pieces.entry out.old out.new result }
{
    let mut written = append_kind(outer, 0, out);
    written = append_kind(inner, written, out);
    written = append(pieces.s, written, out);
    written = append(pieces.t, written, out);
    written = append_kind(inner, written, out);
    written = append(pieces.s, written, out);
    append(pieces.r, written, out)
}
