ghost use Rattle.std.specs.Prelude.{◌≡◌, ℕ};
ghost use Rattle.chooser_core.specs.Choosing.{IsLeastFree, once_more};

use cnf_core::NoMemory;

/// Chooses the variable that a search decides next.
///
/// Any answer is lawful: a search decides `free` in place of a variable that has a value already or that isn't
/// one of its own. So a chooser sways how long a search takes, and never what it finds. What a chooser tells of
/// itself is how often it was asked.
pub trait Chooser: Send + Drop {
    /// How often it was asked.
    ghost asks: { Self → ℕ };

    /// A search over the variables 1 to `vars` begins; `seed` is for choosers that draw. Calls before it, or
    /// after one that found no memory, are lawful too.
    fn begin(&mut self, vars: u32, seed: u64) -> Result<(), NoMemory>
        ensures { asks self.new ≡ 0 };

    /// The variable to decide. `values` has 1, -1 or 0 per variable from 1 on, for true, false and no value,
    /// and `free` is the least variable without a value.
    fn pick(&mut self, values: &[i8], free: u32) -> u32
        requires { IsLeastFree values.now free }
        ensures { asks self.new ≡ once_more (asks self.old) };

    /// The variable took part in a conflict.
    fn bump(&mut self, var: u32)
        ensures { asks self.new ≡ asks self.old };

    /// The variable has lost its value.
    fn freed(&mut self, var: u32)
        ensures { asks self.new ≡ asks self.old };

    /// How often [`Chooser::pick`] was called since the last [`Chooser::begin`], up to 2^64 - 1.
    fn asked(&self) -> u64
        ensures { result ≡ asks self.now };
}
