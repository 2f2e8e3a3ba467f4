//! A gate that shows whether workers run at the same time.
use campaign_claims::Claimer;
use fault_campaign::Gate;
use std::hint::spin_loop;
use std::sync::atomic::{AtomicU64, Ordering};

// Each of four seeds has begun once.
const ONCE_EACH: u64 = 0x0001_0001_0001_0001;

// Holds the first seed that begins until the other three have begun.
#[derive(Drop)]
pub(crate) struct HoldFirst {
    begun: AtomicU64,
    met: AtomicU64,
}

// One number has 16 bits for each seed, which count how often it has begun. A seed after the four would leave no
// expected number.
fn share_of(index: u64) -> u64 {
    match index {
        0 => 0x0001,
        1 => 0x0001_0000,
        2 => 0x0001_0000_0000,
        3 => 0x0001_0000_0000_0000,
        _ => 0x0100,
    }
}

impl HoldFirst {
    pub(crate) fn new() -> HoldFirst {
        HoldFirst {
            begun: AtomicU64::new(0),
            met: AtomicU64::new(0),
        }
    }

    // Whether each seed began once, and the other three while the first was held.
    pub(crate) fn has_met(&self) -> bool {
        self.met.load(Ordering::SeqCst) == 1 && self.begun.load(Ordering::SeqCst) == ONCE_EACH
    }
}

impl Gate for HoldFirst {
    fn begin(&self, _claimer: &Claimer, index: u64) {
        if self.begun.fetch_add(share_of(index), Ordering::SeqCst) != 0 {
            return;
        }
        for _ in 0..100_000_000u32 {
            if self.begun.load(Ordering::SeqCst) == ONCE_EACH {
                self.met.store(1, Ordering::SeqCst);
                return;
            }
            // On a busy machine the other thread has to get its turn, too.
            spin_loop();
        }
    }
}
