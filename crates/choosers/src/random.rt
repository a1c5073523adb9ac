ghost use Rattle.std.specs.Prelude.{◌≡◌};
ghost use Rattle.chooser_core.specs.Choosing.{IsFree, IsLeastFree, once_more};

use crate::free::free_from;
use chooser_core::Chooser;
use cnf_core::NoMemory;
use rand_core::SeedableRng;
use rand_core::utils::NextWord;
use rand_pcg::Pcg32;

/// Picks by chance: draws a variable by the generator PCG32 (O'Neill 2014), which its seed begins, and takes the
/// first from there on that has no value.
#[derive(Drop)]
pub struct RandomChooser {
    asked: u64,
    rng: Pcg32,
}

impl RandomChooser {
    /// A chooser that wasn't asked yet.
    pub fn new() -> RandomChooser
        ensures { result.asked ≡ 0 }
    {
        RandomChooser {
            asked: 0,
            rng: Pcg32::seed_from_u64(0),
        }
    }
}

impl Chooser for RandomChooser {
    ghost asks = { λ c. c.asked };

    fn begin(&mut self, _vars: u32, seed: u64) -> Result<(), NoMemory> {
        self.asked = 0;
        self.rng = Pcg32::seed_from_u64(seed);
        Ok(())
    }

    fn pick(&mut self, values: &[i8], free: u32) -> u32
        requires { IsLeastFree values.now free }
        ensures asked { self.new.asked ≡ once_more self.old.asked }
        ensures free { IsFree values.now result }
    {
        self.asked = self.asked.saturating_add(1);
        let count = values.len().min(u32::MAX as usize) as u32;
        let drawn = self.rng.next_word() % count + 1;
        free_from(values, drawn, free)
    }

    #[inline(always)]
    fn bump(&mut self, _var: u32) {}

    #[inline(always)]
    fn freed(&mut self, _var: u32) {}

    fn asked(&self) -> u64 {
        self.asked
    }
}
