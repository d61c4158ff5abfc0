// Nodes as bytes: where one ends.
ghost use Rattle.std.specs.Prelude.{◌≡◌, ◌≤◌, length, drop};
ghost use Rattle.stream.specs.TypeFiles.{read_type};
ghost use Rattle.reading.specs.Sections.{end_of};
ghost use Rattle.node.specs.PatchFiles.{node_root, read_node};
ghost use Rattle.node.specs.Nodes.Kinds.{node_arity};

use crate::patches::PatchView;
use reading::prefixes::VALUE_WIDTH;
use reading::types::type_end;
use stream::Fault;

// How many parts a node's kind has.
fn node_arity(kind: u8) -> usize
    ensures { result ≡ node_arity kind }
{
    match kind {
        0..=3 => 0,
        4 => 2,
        5..=8 => 0,
        9..=10 => 2,
        11..=14 => 0,
        15 => 2,
        16..=17 => 0,
        // No node's kind.
        18..=255 => 0,
    }
}

// Where the type ends that a node carries at `at`.
fn carried_end(bytes: &[u8], at: usize) -> Result<usize, Fault>
    requires { at ≤ length bytes.now }
    ensures { result ≡ end_of (length bytes.now) (read_type (drop at bytes.now)) }
{
    let read = type_end(&bytes[at..])?;
    Ok(at + read)
}

// Where the root of the node at `at` ends: its kind byte, and a type or a value behind it.
fn root_end(bytes: &[u8], at: usize) -> Result<usize, Fault>
    requires { at ≤ length bytes.now }
    ensures { result ≡ end_of (length bytes.now) (node_root tt (drop at bytes.now)) }
{
    let length = bytes.len();
    if at == length {
        return Err(Fault::CutShort);
    }
    let next = at + 1;
    match bytes[at] {
        0 => Ok(next),
        1 => carried_end(bytes, next),
        2 => Ok(next),
        3 => {
            if length - next < VALUE_WIDTH {
                Err(Fault::CutShort)
            } else {
                Ok(next + VALUE_WIDTH)
            }
        }
        4..=15 => Ok(next),
        16..=17 => carried_end(bytes, next),
        18..=255 => Err(Fault::Unlisted),
    }
}

// Where the node at the front of the bytes ends. What stands behind it is not looked at.
pub fn node_end(bytes: &[u8]) -> Result<usize, Fault>
    ensures { result ≡ end_of (length bytes.now) (read_node bytes.now) }
{
    let mut owed: usize = 1;
    let mut count: usize = 0;
    let mut at: usize = 0;
    while 0 < owed {
        // The limit is tried before the end of the bytes. A type that a node carries does not count.
        if count == PatchView::MAX_NODES {
            return Err(Fault::TooManyNodes);
        }
        let end = root_end(bytes, at)?;
        owed = owed - 1 + node_arity(bytes[at]);
        count += 1;
        at = end;
    }
    Ok(at)
}
