ghost use Rattle.std.specs.Prelude.{◌≡◌};
ghost use Rattle.chooser_core.specs.Choosing.{IsLeastFree, once_more};

use crate::Chooser;
use cnf_core::NoMemory;
use std::alloc::Global;
use std::boxed::Box;
use std::test::Fail;

/// Always answers 0, which is no variable.
#[derive(Drop)]
struct Stubborn {
    count: u64,
}

impl Chooser for Stubborn {
    ghost asks = { λ s. s.count };

    fn begin(&mut self, _vars: u32, _seed: u64) -> Result<(), NoMemory> {
        self.count = 0;
        Ok(())
    }

    fn pick(&mut self, _values: &[i8], _free: u32) -> u32
        requires { IsLeastFree _values.now _free }
        ensures { self.new.count ≡ once_more self.old.count }
    {
        self.count = self.count.saturating_add(1);
        0
    }

    fn bump(&mut self, _var: u32) {}

    fn freed(&mut self, _var: u32) {}

    fn asked(&self) -> u64 {
        self.count
    }
}

#[test]
fn a_boxed_chooser_counts_its_calls_since_it_began(rt: HostRuntime) -> Result<(), Fail> {
    let mut chooser: Box<dyn Chooser> = Box::new(rt.alloc(), Stubborn { count: 7 })?;
    assert_eq!(rt; chooser.asked(), 7);
    chooser.begin(3, 0)?;
    assert_eq!(rt; chooser.asked(), 0);
    chooser.bump(5);
    chooser.freed(5);
    assert_eq!(rt; chooser.asked(), 0);
    Ok(())
}
