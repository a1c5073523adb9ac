ghost use Rattle.std.specs.Prelude.{◌≡◌, ◌+◌, ◌<◌, ◌≤◌, ◌^◌, IsTrue, IfOk, length, replicate, false, true};
ghost use Rattle.cnf_core.specs.Literals.{value_of, with_value};
ghost use Rattle.flip_literals.specs.Walks.{AreVars};
ghost use Rattle.flip_literals.specs.Steps.Marking.{IsMarkedIn};

use cnf_core::NoMemory;
use std::alloc::Global;
use std::marker::Model;

/// A mark for each of the variables 1 to the number that it was made for. It is made once and used for
/// any number of models.
#[derive(Debug, Drop)]
pub struct Marks {
    marked: Vec<bool>,
}

impl Model for Marks {
    ghost use Rattle.std.specs.Prelude.{List, Bool};

    ghost Value = { List Bool };

    ghost view = { λ m. m.marked.items };
}

impl Marks {
    /// Marks for so many variables, all off.
    pub fn new(alloc: Global, vars: u32) -> Result<Marks, NoMemory>
        ensures { IfOk result (λ marks. marks ≡ replicate vars false) }
    {
        Ok(Marks {
            marked: vec![in alloc; false; vars as usize]?,
        })
    }

    /// Whether the variable is marked.
    pub fn is(&self, var: u32) -> bool
        requires { (0 < var) × (var ≤ length self.now) }
        ensures { result ≡ value_of self.now var }
    {
        self.marked[var as usize - 1]
    }

    /// Whether there is a variable behind so many, and it is marked.
    pub(crate) fn has(&self, index: u32) -> bool
        ensures marked { IsTrue result → (index < length self.now) × IsTrue (value_of self.now (index + 1)) }
        ensures limit { IsTrue result → index + 1 < 2 ^ 32 }
    {
        index < u32::MAX && matches!(self.marked.get(index as usize), Some(true))
    }

    /// Marks these variables, and no others.
    pub(crate) fn set_to(&mut self, vars: &[u32])
        requires { AreVars (length self.old) vars.now }
        ensures each { length self.new ≡ length self.old }
        ensures marked { IsMarkedIn self.new vars.now }
    {
        self.clear();
        for var in vars {
            self.mark(*var);
        }
    }

    /// Turns every mark off: one fill of as many bytes as there are variables.
    pub(crate) fn clear(&mut self)
        ensures { self.new ≡ replicate (length self.old) false }
    {
        self.marked.fill(false);
    }

    /// Marks the variable.
    pub(crate) fn mark(&mut self, var: u32)
        requires { (0 < var) × (var ≤ length self.old) }
        ensures { self.new ≡ with_value self.old var true }
    {
        self.marked[var as usize - 1] = true;
    }
}
