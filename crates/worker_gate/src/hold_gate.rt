//! A gate that holds a page back.

use rip_ports::Gate;
use std::hint;
use std::sync::atomic::{AtomicBool, Ordering};

/// Holds page 1 back until page 2 is made, for so many turns at most. So it ends early only where the two are under way at
/// the same time, in two threads.
#[derive(Drop)]
pub struct HoldGate {
    limit: u64,
    is_second_made: AtomicBool,
    is_limit_met: AtomicBool,
}

impl HoldGate {
    /// A gate that turns so often at most.
    pub fn new(limit: u64) -> HoldGate {
        HoldGate {
            limit,
            is_second_made: AtomicBool::new(false),
            is_limit_met: AtomicBool::new(false),
        }
    }

    /// Whether the limit was met: page 1 was held back for all turns, and page 2 wasn't made meanwhile.
    pub fn kept(&self) -> bool {
        self.is_limit_met.load(Ordering::SeqCst)
    }
}

impl Gate for HoldGate {
    fn before(&self, page: u32) {
        if page != 1 {
            return;
        }
        for _ in 0..self.limit {
            if self.is_second_made.load(Ordering::SeqCst) {
                return;
            }
            hint::spin_loop();
        }
        self.is_limit_met.store(true, Ordering::SeqCst);
    }

    fn after(&self, page: u32) {
        if page == 2 {
            self.is_second_made.store(true, Ordering::SeqCst);
        }
    }
}
