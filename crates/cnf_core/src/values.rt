ghost use Rattle.std.specs.Prelude.{◌≡◌, ◌<◌, ◌≤◌, ◌^◌, length, replicate, false, IfOk};
ghost use Rattle.cnf_core.specs.Literals.{value_of, with_value};

use crate::NoMemory;
use std::alloc::Global;
use std::marker::Model;

/// A truth value for each of the variables 1 to [`Values::len`].
#[derive(Debug, Drop)]
pub struct Values {
    bits: Vec<bool>,
}

impl Model for Values {
    ghost use Rattle.std.specs.Prelude.{◌<◌, ◌^◌, length};
    ghost use Rattle.cnf_core.specs.Literals.{Assignment};

    ghost Value = { Assignment };

    ghost view = { λ v. v.bits.items };

    ghost invariant = { λ v. length v.bits.items < 2 ^ 32 };
}

impl Values {
    /// So many values, all false.
    pub fn new(alloc: Global, vars: u32) -> Result<Values, NoMemory>
        ensures { IfOk result (λ v. v ≡ replicate vars false) }
    {
        Ok(Values {
            bits: vec![in alloc; false; vars as usize]?,
        })
    }

    /// How many variables have a value.
    pub fn len(&self) -> u32
        ensures { result ≡ length self.now }
    {
        self.bits.len() as u32
    }

    /// The value of a variable, from 1 to the length.
    pub fn get(&self, var: u32) -> bool
        requires { (0 < var) × (var ≤ length self.now) }
        ensures { result ≡ value_of self.now var }
    {
        self.bits[var as usize - 1]
    }

    /// Sets the value of a variable, from 1 to the length.
    pub fn set(&mut self, var: u32, value: bool)
        requires { (0 < var) × (var ≤ length self.old) }
        ensures { self.new ≡ with_value self.old var value }
    {
        self.bits[var as usize - 1] = value;
    }

    /// An equal assignment of its own.
    pub fn copy(&self) -> Result<Values, NoMemory>
        ensures { IfOk result (λ v. v ≡ self.now) }
    {
        Ok(Values {
            bits: self.bits.clone()?,
        })
    }
}
