// Case 10 of document 01: 63 nodes pass, 65 give 5; a type of 255 passes, 257 gives 4. The tests hold what this prints to the
// second interpreter's answers.
#![tactic(auto)]

ghost use Rattle.std.specs.Prelude.{◌≡◌, ◌+◌, ◌*◌, ◌≤◌, length};

use patch_reading::patches::PatchView;
use reading::types::TypeView;
use std::io;
use wosthile::check;

// Writes at `at` the section of a tree of `2 * pairs + 1` nodes, a fork and a leaf again and again and a last leaf; says where
// the section ends.
fn put_tree(fork: u8, leaf: u8, pairs: usize, at: usize, file: &mut [u8]) -> usize
    requires { (pairs ≤ 128) × (at + 2 * pairs + 3 ≤ length file.old) × (length file.old ≤ 65535) }
    ensures { result ≡ at + 2 * pairs + 3 }
{
    let count = 2 * pairs + 1;
    file[at] = (count / 256) as u8;
    file[at + 1] = (count % 256) as u8;
    let last = at + 2 + 2 * pairs;
    for pair in file[at + 2..last].chunks_exact_mut(2) {
        pair[0] = fork;
        pair[1] = leaf;
    }
    file[last] = leaf;
    last + 1
}

// Writes at `at` the section of totals of 0, where every byte is 0 already; says where the section ends.
fn put_totals(at: usize, file: &mut [u8]) -> usize
    requires { (at + 10 ≤ length file.old) × (length file.old ≤ 65535) }
    ensures { result ≡ at + 10 }
{
    file[at + 1] = PatchView::TOTALS as u8;
    at + 2 + PatchView::TOTALS
}

// One line: `case`, and Check's number for the patch of these two trees and totals of 0. The type is of cues side by side, the nodes are
// chains of pass.
fn print_answer(
    rt: &HostRuntime,
    case: &str,
    type_pairs: usize,
    node_pairs: usize,
) -> io::Result<()>
    requires { (type_pairs ≤ 128) × (node_pairs ≤ 32) }
{
    let mut file = [0u8; 336];
    let nodes = put_tree(4, 1, type_pairs, 0, &mut file);
    let totals = put_tree(10, 0, node_pairs, nodes, &mut file);
    let end = put_totals(totals, &mut file);
    let mut given = [0u8; TypeView::MAX_FILE];
    let answer = check(&file[..end], &mut given);
    let number = answer.number;
    println!(rt; "{case}: {number}")
}

fn main(rt: HostRuntime) -> io::Result<()> {
    print_answer(&rt, "63 nodes", 0, 31)?;
    print_answer(&rt, "65 nodes", 0, 32)?;
    print_answer(&rt, "type of 255", 127, 0)?;
    print_answer(&rt, "type of 257", 128, 0)
}
