ghost use Rattle.std.specs.Prelude.{◌≡◌, ◌<◌, List, [], ◌∷◌, ◌++◌, length, All, IfOk, slice_index_or, slice_set, ◌+◌, ◌*◌, false};
ghost use Rattle.std.specs.List.{list_all};
ghost use Rattle.cnf_core.specs.Literals.{Literals, code_of};
ghost use Rattle.lrat_lines.specs.declared.line.Line.{Line};
ghost use Rattle.lrat_lines.specs.Sets.{is_same};
ghost use Rattle.lrat_lines.specs.Tidy.{clause_of};
ghost use Rattle.cert_merge.specs.Trimming.{is_root};
ghost use Rattle.cert_merge.specs.Steps.Marking.{HasPlace, IsLookingFor};

use cnf_core::{Formula, Lit, NoMemory};
use std::alloc::Global;

/// Which clauses are still looked for: the first of each kind is kept.
#[derive(Drop)]
pub struct Wanted {
    /// By its packed form, whether a literal is looked for.
    pub units: Vec<bool>,
    /// Whether the empty clause is.
    pub empty: bool,
}

impl Wanted {
    /// The empty clause and these literals, over the formula's variables.
    pub fn new(alloc: Global, formula: &Formula, keep: &[Lit]) -> Result<Wanted, NoMemory>
        requires { All (HasPlace (2 * formula.now.vars + 2)) keep.now }
        ensures looks { IfOk result (λ w. IsLookingFor keep.now [] w.units.items w.empty) }
        ensures places { IfOk result (λ w. length w.units.items ≡ 2 * formula.now.vars + 2) }
    {
        let mut units = vec![in alloc; false; 2 * formula.vars() as usize + 2]?;
        for lit in keep {
            units[lit.code() as usize] = true;
        }
        Ok(Wanted { units, empty: true })
    }

    /// Whether a clause is looked for. From then on it no longer is.
    pub fn take(&mut self, lits: &[Lit]) -> bool
        requires { All (HasPlace (length self.old.units.items)) lits.now }
        ensures root { (keep : Literals) (before : List Line) → IsLookingFor keep before self.old.units.items self.old.empty
            → result ≡ is_root keep before lits.now }
        ensures looks { (keep : Literals) (before : List Line) (line : Line) → clause_of line ≡ lits.now
            → IsLookingFor keep before self.old.units.items self.old.empty
            → IsLookingFor keep (before ++ line ∷ []) self.new.units.items self.new.empty }
        ensures places { length self.new.units.items ≡ length self.old.units.items }
    {
        match lits {
            [] => self.take_empty(),
            [first, others @ ..] if are_same(*first, others) => self.take_unit(*first),
            _ => false,
        }
    }

    /// Whether the empty clause is looked for.
    fn take_empty(&mut self) -> bool
        ensures result { result ≡ self.old.empty }
        ensures empty { self.new.empty ≡ false }
        ensures units { self.new.units.items ≡ self.old.units.items }
    {
        let wanted = self.empty;
        self.empty = false;
        wanted
    }

    /// Whether the clause of just this literal is looked for.
    fn take_unit(&mut self, lit: Lit) -> bool
        requires { HasPlace (length self.old.units.items) lit }
        ensures result { result ≡ slice_index_or self.old.units.items (code_of lit) false }
        ensures empty { self.new.empty ≡ self.old.empty }
        ensures units { self.new.units.items ≡ slice_set self.old.units.items (code_of lit) false }
    {
        let code = lit.code() as usize;
        let wanted = self.units[code];
        self.units[code] = false;
        wanted
    }
}

/// Whether all these literals are this one.
fn are_same(first: Lit, others: &[Lit]) -> bool
    ensures { result ≡ list_all (is_same first) others.now }
{
    for other in others {
        if *other != first {
            return false;
        }
    }
    true
}
