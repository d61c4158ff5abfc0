// A node as a value: the front of some bytes, of which every clause speaks as of a node.
ghost use Rattle.std.specs.Prelude.{◌≡◌, [], ◌+◌};
ghost use Rattle.patch_reading.specs.Found.{IsFront, is_front-prop};

use reading::prefixes::VALUE_WIDTH;
use reading::types::{TypeView, skip_type};

// Bytes that begin with a node; what is behind it is free, since where a node ends is known only once it was gone through.
#[derive(Clone, Copy)]
pub struct NodeFront<'a> {
    pub bytes: &'a [u8],
    pub ghost front: { IsFront bytes.now } by { is_front-prop bytes.now },
}

impl<'a> NodeFront<'a> {
    ghost use Rattle.stream.specs.Levels.{value_bytes};
    ghost use Rattle.node.specs.Nodes.Kinds.{node_kind, node_arity, a_type, node_contents};
    ghost use Rattle.reading.specs.Views.{tree};
    ghost use Rattle.patch_reading.specs.PatchReads.{node_width};
    ghost use Rattle.patch_reading.specs.Fronts.{node, first_node, second_node, carried_type, carried_value};

    #[tactic(auto, using(crate::proofs::NodeFronts::not_empty, crate::proofs::NodeFronts::kind_is))]
    pub fn kind(self) -> u8
        ensures { result ≡ node_kind (node self.entry) }
    {
        self.bytes[0]
    }

    // The first part of a node of the kind 4, 9, 10 or 15.
    #[tactic(auto, using(crate::proofs::NodeFronts::not_empty))]
    pub fn first(self) -> NodeFront<'a>
        requires { node_arity (node_kind (node self)) ≡ 2 }
        ensures { node result ≡ first_node (node self.entry) }
    {
        NodeFront {
            bytes: &self.bytes[1..],
        }
    }

    // The second part, which stands where the first ends.
    #[tactic(auto, using(crate::proofs::NodeFronts::second_inside))]
    pub fn second(self, end: usize) -> NodeFront<'a>
        requires fork { node_arity (node_kind (node self)) ≡ 2 }
        requires ends { end ≡ 1 + node_width (first_node (node self)) }
        ensures { node result ≡ second_node (node self.entry) }
    {
        NodeFront {
            bytes: &self.bytes[end..],
        }
    }

    // The bytes of the value that level carries.
    #[tactic(auto, using(crate::proofs::NodeFronts::value_inside, crate::proofs::NodeFronts::value_there))]
    pub fn value(self) -> &'a [u8]
        requires { node_kind (node self) ≡ 3 }
        ensures { result.now ≡ value_bytes (carried_value (node self.entry)) [] }
    {
        &self.bytes[1..1 + VALUE_WIDTH]
    }

    // The type that a node of the kind 1, 16 or 17 carries.
    pub fn carried(self) -> TypeView<'a>
        requires { node_contents (node_kind (node self)) ≡ a_type }
        ensures { tree result ≡ carried_type (node self.entry) }
    {
        let end = skip_type(self.bytes, 1);
        TypeView {
            bytes: &self.bytes[1..end],
        }
    }
}
