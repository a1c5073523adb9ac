ghost use Rattle.std.specs.Prelude.{◌<◌, ◌≤◌, ◌^◌};
ghost use Rattle.cnf_core.specs.Literals.{IsWithin};

use cnf_core::Lit;

/// A multiplicative congruential generator of 64 bits, whose upper half is given (multiplier of
/// Steele and Vigna, 2021).
#[derive(Debug, Drop)]
pub struct Draws {
    state: u64,
}

impl Draws {
    /// The generator of this number: others draw other numbers. Its first state is odd.
    pub fn new(pick: u32) -> Draws {
        let odd = 2 * u64::from(pick) + 1;
        Draws {
            state: odd.wrapping_mul(0x9e37_79b9_7f4a_7c15),
        }
    }

    /// The next number.
    pub fn next(&mut self) -> u32 {
        self.state = self.state.wrapping_mul(0xd134_2543_de82_ef95);
        (self.state >> 32) as u32
    }

    /// The next number, taken below a bound.
    pub fn below(&mut self, bound: u32) -> u32
        requires { 0 < bound }
        ensures { result < bound }
    {
        self.next() % bound
    }

    /// A literal of one of the variables 1 to so many, at most 2^20: the variable is drawn, then the sign.
    pub fn literal(&mut self, vars: u32) -> Lit
        requires { (0 < vars) × (vars ≤ 2 ^ 20) }
        ensures { IsWithin vars result }
    {
        let var = 1 + self.below(vars);
        Lit::new(var, self.next() % 2 == 0)
    }
}
