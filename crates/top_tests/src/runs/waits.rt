//! How a gate has one thread wait for another.

use std::sync::atomic::{AtomicU64, Ordering};
use std::thread::sleep;
use std::time::{Clock, Duration};

// For how many milliseconds a thread waits for another that comes: longer than any machine keeps a
// thread from its work.
pub(super) const LONG: u32 = 20_000;

// And for one that does not come.
pub(super) const SHORT: u32 = 300;

// Waits until a number is reached, at most so many milliseconds, and answers whether it was. It
// sleeps between two looks, so that the others go on.
pub(super) fn waits_for<R: Clock>(rt: &R, number: &AtomicU64, wanted: u64, millis: u32) -> bool {
    for _ in 0..millis {
        if number.load(Ordering::SeqCst) >= wanted {
            return true;
        }
        sleep(rt, Duration::from_millis(1));
    }
    false
}
