// The operations on files, for the frame loop: any bytes may be handed to them. What each promises stands in
// Promises.antt of the crate `meaning`; the crate `wosthile_c` has their names for C.
#![tactic(auto)]

ghost use Rattle.meaning.specs.Promises.{CheckPromise, AdmitPromise, LeftPromise, JoinPromise, FeedPromise, LongestPromise};
ghost use Rattle.meaning.specs.Told.{told, told_taken, told_delivered};
ghost use Rattle.node.specs.Checking.{typing};
ghost use Rattle.node.specs.Nodes.{count};
ghost use Rattle.patch_reading.specs.Fronts.{node};
ghost use Rattle.patch_reading.specs.PatchViews.{patch};
ghost use Rattle.reading.specs.InputViews.{prefix};
ghost use Rattle.reading.specs.Views.{tree};
ghost use Rattle.std.specs.Prelude.{◌≡◌, ◌*◌, ◌≤◌, [], length};
ghost use Rattle.stream.specs.Bounds.{twice_node_bytes, node_bytes_limit};
ghost use Rattle.stream.specs.Prefixes.{arrivals, derivative};
ghost use Rattle.stream.specs.TypeFiles.{type_bytes};
ghost use Rattle.wosthile.specs.Delivering.{first_fault, fed_by, Delivers};
ghost use Rattle.wosthile.specs.PatchWriting.{PutsFile, PatchWriteDue, PatchWritten, BothDue, BothWritten};

use feeding::feed_node;
use meaning::{Admitted, Delivered, Fed, Taken, Written};
use measuring::{plan_longest, write_longest_file};
use patch_reading::files::read_patch_file;
use patch_reading::patches::PatchView;
use reading::files::read_type_file;
use reading::fronts::TypeFront;
use reading::inputs::Input;
use reading::prefixes::MAX_SLICE_FILE;
use reading::types::TypeView;
use stream::Fault;
use totals::add_counts;
use typing::type_node;
use writing::slices::read_slice_file;
use writing::{write_joined_file, write_section};

mod totals;

// A patch and a slice of its input type, as they were read: how many cues and levels came in the slice, and the bytes of what it leaves of
// the type.
#[derive(Clone, Copy)]
struct Feeding<'a, 'b> {
    patch: PatchView<'a>,
    slice: Input<'a>,
    arrived: u32,
    left: &'b [u8],
    ghost of_type: { slice.ty.bytes.now ≡ patch.input.bytes.now },
    ghost arrived_is: { arrived ≡ arrivals (prefix slice) },
    ghost left_is: { left.now ≡ type_bytes (derivative (tree patch.input) (prefix slice)) [] },
}

// Writes the file whose section has the body `body`, if there is room, and says how many bytes it has.
fn put_file(body: &[u8], out: &mut [u8]) -> Result<usize, Fault>
    requires { length body.now ≤ 65535 }
    ensures { PutsFile body.now out.old result out.new }
{
    let size = body.len();
    let needed = 2 + size;
    if out.len() < needed {
        return Err(Fault::NoRoom);
    }
    write_section(body, out);
    Ok(needed)
}

fn try_check(patch: &[u8], out: &mut [u8]) -> Result<usize, Fault>
    ensures { CheckPromise patch.now out.old (told result) out.new }
{
    let patch = read_patch_file(patch)?;
    let mut given = [0u8; TypeView::MAX_NODES];
    let typed = type_node(patch.input, patch.node, &mut given)?;
    put_file(&given[..typed.size], out)
}

// The file of the type that the patch gives.
pub fn check(patch: &[u8], out: &mut [u8]) -> Written
    ensures { CheckPromise patch.now out.old result out.new }
{
    try_check(patch, out).into()
}

fn try_admit(ty: &[u8], slice: &[u8]) -> Result<Taken, Fault>
    ensures { AdmitPromise ty.now slice.now (told_taken result) }
{
    let ty = read_type_file(ty)?;
    // What the slice leaves is not asked.
    let mut none = [0u8; 0];
    let prefix = read_slice_file(TypeFront::of(ty), slice, &mut none)?;
    Ok(Taken {
        complete: prefix.complete,
        arrived: prefix.arrived,
    })
}

// Whether the slice is complete, and how many cues and levels came in it.
pub fn admit(ty: &[u8], slice: &[u8]) -> Admitted
    ensures { AdmitPromise ty.now slice.now result }
{
    try_admit(ty, slice).into()
}

fn try_left(ty: &[u8], slice: &[u8], out: &mut [u8]) -> Result<usize, Fault>
    ensures { LeftPromise ty.now slice.now out.old (told result) out.new }
{
    let ty = read_type_file(ty)?;
    let mut left = [0u8; TypeView::MAX_NODES];
    let prefix = read_slice_file(TypeFront::of(ty), slice, &mut left)?;
    put_file(&left[..prefix.remains], out)
}

// The file of what the slice leaves of the type.
pub fn left(ty: &[u8], slice: &[u8], out: &mut [u8]) -> Written
    ensures { LeftPromise ty.now slice.now out.old result out.new }
{
    try_left(ty, slice, out).into()
}

// The second slice is read against what the first leaves of the type. A slice file has its tree behind the two bytes of the count.
fn try_join(ty: &[u8], first: &[u8], second: &[u8], out: &mut [u8]) -> Result<usize, Fault>
    ensures { JoinPromise ty.now first.now second.now out.old (told result) out.new }
{
    let ty = read_type_file(ty)?;
    let mut left = [0u8; TypeView::MAX_NODES];
    let prefix = read_slice_file(TypeFront::of(ty), first, &mut left)?;
    let remainder = TypeView {
        bytes: &left[..prefix.remains],
    };
    // What the second leaves is not asked.
    let mut none = [0u8; 0];
    read_slice_file(TypeFront::of(remainder), second, &mut none)?;
    let joined = first.len() - 2 + (second.len() - 2) - prefix.overlap;
    if out.len() < 2 + joined {
        return Err(Fault::NoRoom);
    }
    write_joined_file(first, second, joined, out);
    Ok(2 + joined)
}

// The file of the two slices' join.
pub fn join(ty: &[u8], first: &[u8], second: &[u8], out: &mut [u8]) -> Written
    ensures { JoinPromise ty.now first.now second.now out.old result out.new }
{
    try_join(ty, first, second, out).into()
}

// Writes the file of a patch, from the bytes of its input type, those of its nodes and those of its totals.
fn write_patch_file(input: &[u8], nodes: &[u8], totals: &[u8], out: &mut [u8])
    requires { PatchWriteDue input.now nodes.now totals.now out.old }
    ensures { PatchWritten input.now nodes.now totals.now out.old out.new }
{
    write_section(input, out);
    let typed = 2 + input.len();
    write_section(nodes, &mut out[typed..]);
    let written = typed + (2 + nodes.len());
    write_section(totals, &mut out[written..]);
}

// Writes what is sent and the patch left, if both buffers have room: the bytes of the slice sent, of the type left, of the nodes left and of
// the totals. `arrived` and `went` are how many cues and levels came and were sent.
fn write_both(
    sent: &[u8],
    left: &[u8],
    nodes: &[u8],
    totals: &[u8],
    arrived: u32,
    went: u32,
    out: &mut [u8],
    next: &mut [u8],
) -> Result<Delivered, Fault>
    requires { BothDue sent.now left.now nodes.now totals.now }
    ensures { BothWritten sent.now left.now nodes.now totals.now arrived went out.old next.old (told_delivered result) out.new next.new }
{
    let output = 2 + sent.len();
    let needed = 2 + left.len() + 2 + nodes.len() + 2 + totals.len();
    if out.len() < output {
        return Err(Fault::NoRoom);
    }
    if next.len() < needed {
        return Err(Fault::NoRoom);
    }
    write_section(sent, out);
    write_patch_file(left, nodes, totals, next);
    Ok(Delivered {
        output,
        patch: needed,
        arrived,
        sent: went,
    })
}

// Why a patch that was read is not fed: the first fault of Check's second pass, which comes before all others, or else `fault`.
fn first_fault(patch: PatchView<'_>, fault: Fault) -> Fault
    ensures { result ≡ first_fault (typing (tree patch.entry.input) (node patch.entry.node)) fault }
{
    let mut given = [0u8; TypeView::MAX_NODES];
    match type_node(patch.input, patch.node, &mut given) {
        Err(first) => first,
        Ok(_) => fault,
    }
}

// Feeds what was read. The answers are made on work bytes, `nodes` for the nodes left, since all of them have to be known before a byte of
// either buffer is written; and 31 comes before 20, so the totals are made before room is tried. The step fails exactly if Check refuses the
// patch.
fn send(
    read: Feeding<'_, '_>,
    nodes: &mut [u8],
    out: &mut [u8],
    next: &mut [u8],
) -> Result<Delivered, Fault>
    requires { twice_node_bytes (count (node read.patch.node)) ≤ 2 * length nodes.old }
    ensures { Delivers (fed_by (patch read.entry.patch) (prefix read.entry.slice)) out.old next.old (told_delivered result) out.new next.new }
{
    let patch = read.patch;
    let mut sent = [0u8; MAX_SLICE_FILE];
    let mut given = [0u8; TypeView::MAX_NODES];
    let Some(step) = feed_node(patch.node, read.slice, &mut sent, nodes, &mut given) else {
        // Another fault than Check's is never told here.
        return Err(first_fault(patch, Fault::TypeTooLarge));
    };
    let output = Input {
        ty: TypeView {
            bytes: &given[..step.size],
        },
        slice: &sent[..step.sent],
    };
    let went = output.arrivals();
    let mut totals = [0u8; PatchView::TOTALS];
    add_counts(patch.totals, read.arrived, went, &mut totals)?;
    write_both(
        output.slice,
        read.left,
        &nodes[..step.kept],
        &totals,
        read.arrived,
        went,
        out,
        next,
    )
}

// The same with a work array of `ROOM` bytes. Each size has a function of its own, so that the arrays take the same place on the stack.
fn send_with<const ROOM: usize>(
    read: Feeding<'_, '_>,
    out: &mut [u8],
    next: &mut [u8],
) -> Result<Delivered, Fault>
    requires room_for_nodes { twice_node_bytes (count (node read.patch.node)) ≤ 2 * ROOM }
    requires countable { ROOM ≤ node_bytes_limit }
    ensures { Delivers (fed_by (patch read.entry.patch) (prefix read.entry.slice)) out.old next.old (told_delivered result) out.new next.new }
{
    let mut nodes = [0u8; ROOM];
    send(read, &mut nodes, out, next)
}

// Feeds with as many work bytes as the patch needs: up to 15 nodes need no more than a quarter of the whole, and clearing it is what a small
// patch spends its time on. Each node has a byte at least, so fewer than 16 bytes are at most 15 nodes.
fn send_on(read: Feeding<'_, '_>, out: &mut [u8], next: &mut [u8]) -> Result<Delivered, Fault>
    ensures { Delivers (fed_by (patch read.entry.patch) (prefix read.entry.slice)) out.old next.old (told_delivered result) out.new next.new }
{
    if read.patch.node.bytes.len() < 16 {
        return send_with::<2055>(read, out, next);
    }
    send_with::<{ PatchView::MAX_NODE_BYTES }>(read, out, next)
}

// The slice is read before the patch is typed, since the step types it; Check's numbers come first all the same.
fn try_feed<'a>(
    patch: &'a [u8],
    slice: &'a [u8],
    out: &mut [u8],
    next: &mut [u8],
) -> Result<Delivered, Fault>
    ensures { FeedPromise patch.now slice.now out.old next.old (told_delivered result) out.new next.new }
{
    let patch = read_patch_file(patch)?;
    let mut left = [0u8; TypeView::MAX_NODES];
    match read_slice_file(TypeFront::of(patch.input), slice, &mut left) {
        Err(fault) => Err(first_fault(patch, fault)),
        Ok(prefix) => {
            let slice = Input {
                ty: patch.input,
                slice: &slice[2..],
            };
            let read = Feeding {
                patch,
                slice,
                arrived: prefix.arrived,
                left: &left[..prefix.remains],
            };
            send_on(read, out, next)
        }
    }
}

// The file of what the patch sends on the slice, and that of the patch left.
pub fn feed(patch: &[u8], slice: &[u8], out: &mut [u8], next: &mut [u8]) -> Fed
    ensures { FeedPromise patch.now slice.now out.old next.old result out.new next.new }
{
    try_feed(patch, slice, out, next).into()
}

fn try_longest(ty: &[u8], out: &mut [u8]) -> Result<usize, Fault>
    ensures { LongestPromise ty.now out.old (told result) out.new }
{
    let ty = read_type_file(ty)?;
    let mut plan = [0u8; TypeView::MAX_NODES];
    let planned = plan_longest(TypeFront::of(ty), &mut plan);
    let length = 2 + planned.width;
    if out.len() < length {
        return Err(Fault::NoRoom);
    }
    write_longest_file(TypeFront::of(ty), &plan, planned.width, out);
    Ok(length)
}

// The file of the longest slice of the type. Its length is known once the type has been planned, before a byte is written.
pub fn longest(ty: &[u8], out: &mut [u8]) -> Written
    ensures { LongestPromise ty.now out.old result out.new }
{
    try_longest(ty, out).into()
}
