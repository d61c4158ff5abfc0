// The totals of a patch: how many cues and levels arrived and were sent in all feeds that led to it.
ghost use Rattle.patch_reading.specs.Found.{totals_of};
ghost use Rattle.std.specs.Prelude.{◌≡◌, ◌+◌, ◌-◌, ◌≤◌, length, drop};
ghost use Rattle.wosthile.specs.TotalsLeft.{total_in, counted, Sums};

use patch_reading::patches::PatchView;
use reading::sections::count_of;
use stream::Fault;
use writing::numbers::put_number;

// The number of the four bytes at `at`, the high one first.
fn total_at(bytes: &[u8], at: usize) -> u32
    requires { at + 4 ≤ length bytes.now }
    ensures { result ≡ total_in bytes.now at }
{
    let high = count_of(bytes[at], bytes[at + 1]);
    let low = count_of(bytes[at + 2], bytes[at + 3]);
    (high * 65536 + low) as u32
}

// Writes the totals of the patch left, those of the patch, which are its last eight bytes, and both counts, unless one of them passes
// "4,294,967,295", the most that four bytes hold: then nothing is written. Any eight bytes are totals.
pub fn add_counts(patch: &[u8], arrived: u32, sent: u32, out: &mut [u8]) -> Result<(), Fault>
    requires has_totals { 8 ≤ length patch.now }
    requires eight { length out.old ≡ 8 }
    ensures { Sums (counted (totals_of (drop (length patch.now - 8) patch.now)) arrived sent) out.new result }
{
    let totals = &patch[patch.len() - PatchView::TOTALS..];
    let came = total_at(totals, 0)
        .checked_add(arrived)
        .ok_or(Fault::TotalTooLarge)?;
    let went = total_at(totals, 4)
        .checked_add(sent)
        .ok_or(Fault::TotalTooLarge)?;
    put_number::<4>(came, out);
    put_number::<4>(went, &mut out[4..]);
    Ok(())
}
