// The operations under their C names; include/wosthile.h declares them. Each is the library's, and promises what that does.
#![tactic(auto)]

ghost use Rattle.std.specs.Prelude.{◌≡◌};
ghost use Rattle.meaning.specs.Promises.{CheckPromise, AdmitPromise, LeftPromise, JoinPromise, FeedPromise, LongestPromise};

use meaning::{Admitted, Fed, Written};
use wosthile::{admit, check, feed, join, left, longest};

#[unsafe(no_mangle)]
pub extern "C" fn wosthile_check(patch: &[u8], out: &mut [u8]) -> Written
    ensures { CheckPromise patch.now out.old result out.new }
{
    check(patch, out)
}

#[unsafe(no_mangle)]
pub extern "C" fn wosthile_admit(ty: &[u8], slice: &[u8]) -> Admitted
    ensures { AdmitPromise ty.now slice.now result }
{
    admit(ty, slice)
}

#[unsafe(no_mangle)]
pub extern "C" fn wosthile_left(ty: &[u8], slice: &[u8], out: &mut [u8]) -> Written
    ensures { LeftPromise ty.now slice.now out.old result out.new }
{
    left(ty, slice, out)
}

#[unsafe(no_mangle)]
pub extern "C" fn wosthile_join(ty: &[u8], first: &[u8], second: &[u8], out: &mut [u8]) -> Written
    ensures { JoinPromise ty.now first.now second.now out.old result out.new }
{
    join(ty, first, second, out)
}

#[unsafe(no_mangle)]
pub extern "C" fn wosthile_feed(patch: &[u8], slice: &[u8], out: &mut [u8], next: &mut [u8]) -> Fed
    ensures { FeedPromise patch.now slice.now out.old next.old result out.new next.new }
{
    feed(patch, slice, out, next)
}

#[unsafe(no_mangle)]
pub extern "C" fn wosthile_longest(ty: &[u8], out: &mut [u8]) -> Written
    ensures { LongestPromise ty.now out.old result out.new }
{
    longest(ty, out)
}

// The binary interface that a program is built for: WOSTHILE_ABI of the header.
#[unsafe(no_mangle)]
pub extern "C" fn wosthile_abi() -> u32
    ensures { result ≡ 3 }
{
    3
}

// Named for the number, so that a program built for another interface does not link.
#[unsafe(no_mangle)]
pub extern "C" fn wosthile_abi_3() -> u32
    ensures { result ≡ 3 }
{
    wosthile_abi()
}
