// Patch files, read with the first fault. Each reader of a part answers with what was read and the bytes behind it.
ghost use Rattle.std.specs.Prelude.{◌≡◌, IfOk};
ghost use Rattle.node.specs.Totals.{totals_section};
ghost use Rattle.node.specs.PatchFiles.{read_node, node_section, first_pass};
ghost use Rattle.patch_reading.specs.Found.{OneNode, AreTotals};
ghost use Rattle.patch_reading.specs.PatchViews.{node_seen, totals_seen, patch_seen};

use crate::fronts::NodeFront;
use crate::nodes::node_end;
use crate::patches::PatchView;
use reading::files::{split_section, split_type_section};
use stream::Fault;

// The node at the front of the bytes. What stands behind it is not looked at.
fn split_node(bytes: &[u8]) -> Result<(NodeFront<'_>, &[u8]), Fault>
    ensures seen { node_seen result ≡ read_node bytes.now }
    ensures one_node { IfOk result (λ v. OneNode v.0.bytes.now) }
{
    let end = node_end(bytes)?;
    let (bytes, rest) = bytes.split_at(end);
    Ok((NodeFront { bytes }, rest))
}

// The node that fills the section at the front of the bytes.
#[tactic(auto, unfolding(node::specs::PatchFiles::node_section, stream::specs::Reading::section, stream::specs::Reading::counted))]
fn split_node_section(bytes: &[u8]) -> Result<(NodeFront<'_>, &[u8]), Fault>
    ensures seen { node_seen result ≡ node_section bytes.now }
    ensures one_node { IfOk result (λ v. OneNode v.0.bytes.now) }
{
    let (body, rest) = split_section(bytes)?;
    let (node, left) = split_node(body)?;
    if left.is_empty() {
        Ok((node, rest))
    } else {
        Err(Fault::LeftOver)
    }
}

// The totals that fill the section at the front of the bytes: what they are is not asked.
#[tactic(auto, unfolding(node::specs::Totals::totals_section, stream::specs::Reading::section, stream::specs::Reading::counted))]
fn split_totals(bytes: &[u8]) -> Result<(&[u8], &[u8]), Fault>
    ensures seen { totals_seen result ≡ totals_section bytes.now }
    ensures are_totals { IfOk result (λ v. AreTotals v.0.now) }
{
    let (body, rest) = split_section(bytes)?;
    if body.len() < PatchView::TOTALS {
        return Err(Fault::CutShort);
    }
    if PatchView::TOTALS < body.len() {
        return Err(Fault::LeftOver);
    }
    Ok((body, rest))
}

// The patch of a patch file; otherwise the first fault. Any bytes may be handed in.
#[tactic(auto, unfolding(node::specs::PatchFiles::first_pass, node::specs::PatchFiles::patch_sections))]
pub fn read_patch_file(file: &[u8]) -> Result<PatchView<'_>, Fault>
    ensures { patch_seen result ≡ first_pass file.now }
{
    let (input, behind_type) = split_type_section(file)?;
    let (node, behind_node) = split_node_section(behind_type)?;
    let (totals, rest) = split_totals(behind_node)?;
    if rest.is_empty() {
        Ok(PatchView::new(input, node, totals))
    } else {
        Err(Fault::LeftOver)
    }
}
