//! A gate at which two workers wait for each other.

use race_io::Gate;
use std::sync::atomic::{AtomicU64, Ordering};

/// How often a worker looks before it gives up.
const MOST_TURNS: u32 = 100_000_000;

/// Client 0 waits before its first call until client 1 stands before its second, and client 1 waits there until client 0 stands before
/// its own second call. So the calls go on only where both clients have a worker at once.
#[derive(Drop)]
pub struct Meeting {
    first: AtomicU64,
    second: AtomicU64,
    gave_up: AtomicU64,
}

impl Meeting {
    /// Nobody stands at the gate.
    pub fn new() -> Meeting {
        Meeting {
            first: AtomicU64::new(0),
            second: AtomicU64::new(0),
            gave_up: AtomicU64::new(0),
        }
    }

    /// How many workers have waited in vain.
    pub fn gave_up(&self) -> u64 {
        self.gave_up.load(Ordering::SeqCst)
    }

    // Waits until the flag is raised.
    fn wait(&self, flag: &AtomicU64) {
        for _turn in 0..MOST_TURNS {
            if flag.load(Ordering::SeqCst) != 0 {
                return;
            }
            std::hint::spin_loop();
        }
        self.gave_up.fetch_add(1, Ordering::SeqCst);
    }
}

impl Gate for Meeting {
    fn before(&self, client: u32, call: u32) {
        if client == 0 && call == 1 {
            self.wait(&self.second);
        } else if client == 0 && call == 2 {
            self.first.store(1, Ordering::SeqCst);
        } else if client == 1 && call == 2 {
            self.second.store(1, Ordering::SeqCst);
            self.wait(&self.first);
        }
    }
}
