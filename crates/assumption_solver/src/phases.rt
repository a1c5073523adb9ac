use cnf_core::{Lit, NoMemory};
use std::alloc::Global;

/// The sign that each variable had last, and that it is decided by.
#[derive(Debug, Drop)]
pub struct Phases {
    signs: Vec<bool>,
}

impl Phases {
    /// Each of the variables 1 to so many is decided as it stands first.
    pub fn new(alloc: Global, vars: u32) -> Result<Phases, NoMemory> {
        Ok(Phases {
            signs: vec![in alloc; true; vars as usize + 1]?,
        })
    }

    /// The sign to decide a variable by.
    #[inline(always)]
    pub fn sign(&self, var: u32) -> bool {
        self.signs.get(var as usize).copied().unwrap_or(true)
    }

    /// Keeps the sign of a literal for its variable.
    #[inline(always)]
    pub fn save(&mut self, lit: Lit) {
        if let Some(sign) = self.signs.get_mut(lit.var() as usize) {
            *sign = lit.positive();
        }
    }
}
