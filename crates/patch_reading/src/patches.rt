// A patch as a value: its input type, its node and its totals, in their bytes.
ghost use Rattle.std.specs.Prelude.{◌≡◌};
ghost use Rattle.patch_reading.specs.Found.{OneNode, AreTotals};

use crate::fronts::NodeFront;
use reading::types::TypeView;

// What stands in a patch file. Neither behind the node nor behind the totals is another byte.
#[derive(Clone, Copy)]
pub struct PatchView<'a> {
    pub input: TypeView<'a>,
    pub node: NodeFront<'a>,
    pub totals: &'a [u8],
    pub ghost one_node: { OneNode node.bytes.now },
    pub ghost are_totals: { AreTotals totals.now },
}

impl<'a> PatchView<'a> {
    ghost use Rattle.patch_reading.specs.PatchViews.{patch, patch_of};

    // "At most 63 nodes in a patch."
    pub const MAX_NODES: usize = 63;

    // The nodes of a patch have at most so many bytes: 31 nodes with parts, and 32 silents with the largest type.
    pub const MAX_NODE_BYTES: usize = 8223;

    // The totals, arrived and sent, have four bytes each.
    pub const TOTALS: usize = 8;

    // No patch file is longer: three counts, an input type of 255 nodes, and the totals.
    pub const MAX_FILE: usize = 8492;

    // The patch of these parts.
    pub fn new(input: TypeView<'a>, node: NodeFront<'a>, totals: &'a [u8]) -> PatchView<'a>
        requires one_node { OneNode node.bytes.now }
        requires are_totals { AreTotals totals.now }
        ensures { patch result ≡ patch_of input.entry node.entry totals.now }
    {
        PatchView {
            input,
            node,
            totals,
        }
    }
}
