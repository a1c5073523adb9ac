//! Choosers and gates by which tests watch a run.
ghost use Rattle.std.specs.Prelude.{◌≡◌};
ghost use Rattle.chooser_core.specs.Choosing.{IsLeastFree, once_more};

use chooser_core::Chooser;
use cnf_core::NoMemory;
use std::hint;
use std::sync::Arc;
use std::sync::atomic::Ordering::SeqCst;
use std::sync::atomic::{AtomicBool, AtomicU64};
use worker_loop::Gate;

/// Always picks one number, and counts itself where it is dropped.
pub struct Stubborn {
    number: u32,
    asked: u64,
    dropped: Arc<AtomicU64>,
}

impl Drop for Stubborn {
    fn drop(self) {
        self.dropped.fetch_add(1, SeqCst);
        let Stubborn {
            number: _,
            asked: _,
            dropped: _,
        } = self;
    }
}

impl Chooser for Stubborn {
    ghost asks = { λ s. s.asked };

    fn begin(&mut self, _vars: u32, _seed: u64) -> Result<(), NoMemory> {
        self.asked = 0;
        Ok(())
    }

    fn pick(&mut self, values: &[i8], free: u32) -> u32
        requires { IsLeastFree values.now free }
        ensures { self.new.asked ≡ once_more self.old.asked }
    {
        self.asked = self.asked.saturating_add(1);
        if values.is_empty() { free } else { self.number }
    }

    fn bump(&mut self, _var: u32) {}

    fn freed(&mut self, _var: u32) {}

    fn asked(&self) -> u64 {
        self.asked
    }
}

impl Stubborn {
    /// One that wasn't asked yet.
    pub fn new(number: u32, dropped: Arc<AtomicU64>) -> Stubborn {
        Stubborn {
            number,
            asked: 0,
            dropped,
        }
    }
}

/// Picks the least variable without a value, and tells at its end how often it was asked.
pub struct Watched {
    count: u64,
    told: Arc<AtomicU64>,
}

impl Drop for Watched {
    fn drop(self) {
        let Watched { count, told } = self;
        told.fetch_add(count, SeqCst);
    }
}

impl Chooser for Watched {
    ghost asks = { λ s. s.count };

    fn begin(&mut self, _vars: u32, _seed: u64) -> Result<(), NoMemory> {
        self.count = 0;
        Ok(())
    }

    fn pick(&mut self, values: &[i8], free: u32) -> u32
        requires { IsLeastFree values.now free }
        ensures { self.new.count ≡ once_more self.old.count }
    {
        self.count = self.count.saturating_add(1);
        free
    }

    fn bump(&mut self, _var: u32) {}

    fn freed(&mut self, _var: u32) {}

    fn asked(&self) -> u64 {
        self.count
    }
}

impl Watched {
    /// One that wasn't asked yet.
    pub fn new(told: Arc<AtomicU64>) -> Watched {
        Watched { count: 0, told }
    }
}

/// Which choosers a run has.
#[derive(Drop)]
pub enum Kind {
    /// The least variable without a value.
    InOrder,
    /// At the even places what conflicts met last, at the others the least variable without a value.
    Mixed,
    /// The least variable without a value; how often the first of them was asked is told.
    Watched {
        asked: Arc<AtomicU64>,
    },
    /// Always this number, counted where they are dropped.
    Stubborn {
        number: u32,
        dropped: Arc<AtomicU64>,
    },
}

/// How a run goes.
#[derive(Clone, Copy)]
pub enum How {
    /// With one worker.
    Alone,
    /// With as many workers as the words say.
    Served,
}

/// At its first turn each of two workers raises its flag and looks for the other's so many times.
#[derive(Drop)]
pub struct Meeting {
    first: AtomicBool,
    second: AtomicBool,
    /// A worker didn't find the other's flag.
    pub missed: AtomicBool,
}

/// How often a worker looks.
const LOOKS: u32 = 10_000_000;

impl Meeting {
    pub fn new() -> Meeting {
        Meeting {
            first: AtomicBool::new(false),
            second: AtomicBool::new(false),
            missed: AtomicBool::new(false),
        }
    }

    /// Raises one flag, and looks for the other.
    fn meet(&self, own: &AtomicBool, other: &AtomicBool) {
        own.store(true, SeqCst);
        for _ in 0..LOOKS {
            if other.load(SeqCst) {
                return;
            }
            hint::spin_loop();
        }
        self.missed.store(true, SeqCst);
    }
}

impl Gate for Meeting {
    fn pass(&self, worker: u32, turn: u64) {
        match (worker, turn) {
            (0, 0) => self.meet(&self.first, &self.second),
            (1, 0) => self.meet(&self.second, &self.first),
            _ => {}
        }
    }
}
