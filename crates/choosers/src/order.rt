ghost use Rattle.std.specs.Prelude.{◌≡◌};
ghost use Rattle.chooser_core.specs.Choosing.{IsFree, IsLeastFree, once_more};

use chooser_core::Chooser;
use cnf_core::NoMemory;

/// Picks the least variable without a value.
#[derive(Debug, Drop)]
pub struct OrderChooser {
    asked: u64,
}

impl OrderChooser {
    /// A chooser that wasn't asked yet.
    pub fn new() -> OrderChooser
        ensures { result.asked ≡ 0 }
    {
        OrderChooser { asked: 0 }
    }
}

impl Chooser for OrderChooser {
    ghost asks = { λ c. c.asked };

    fn begin(&mut self, _vars: u32, _seed: u64) -> Result<(), NoMemory> {
        self.asked = 0;
        Ok(())
    }

    fn pick(&mut self, values: &[i8], free: u32) -> u32
        requires { IsLeastFree values.now free }
        ensures asked { self.new.asked ≡ once_more self.old.asked }
        ensures free { IsFree values.now result }
        ensures least { result ≡ free }
    {
        self.asked = self.asked.saturating_add(1);
        free
    }

    #[inline(always)]
    fn bump(&mut self, _var: u32) {}

    #[inline(always)]
    fn freed(&mut self, _var: u32) {}

    fn asked(&self) -> u64 {
        self.asked
    }
}
