ghost use Rattle.std.specs.Prelude.{◌≡◌, ◌||◌, false, length, All, slice_index_or};
ghost use Rattle.std.specs.List.{list_all};
ghost use Rattle.cnf_core.specs.Literals.{Literal, code_of};
ghost use Rattle.lrat_lines.specs.Sets.{is_same};
ghost use Rattle.lrat_checker.specs.Steps.Units.{unit_of, is_unit, is_empty};
ghost use Rattle.lrat_checker.specs.Steps.Assigned.{HasPlace};

use cnf_core::Lit;

/// Whether all these literals are this one.
fn are_same(first: Lit, others: &[Lit]) -> bool
    ensures { result ≡ list_all (is_same first) others.now }
{
    for other in others {
        if *other != first {
            return false;
        }
    }
    true
}

/// The only literal of a clause, if it has just one, however often.
fn unit_of(lits: &[Lit]) -> Option<Lit>
    ensures { result ≡ unit_of lits.now }
{
    match lits {
        [first, others @ ..] if are_same(*first, others) => Some(*first),
        _ => None,
    }
}

/// Marks what a clause reaches, if it is a unit.
pub fn reach(units: &mut [bool], lits: &[Lit])
    requires { All (HasPlace (length units.old)) lits.now }
    ensures { (l : Literal) → slice_index_or units.new (code_of l) false
        ≡ (slice_index_or units.old (code_of l) false || is_unit lits.now l) }
{
    if let Some(lit) = unit_of(lits) {
        units[lit.code() as usize] = true;
    }
}

/// Whether the clause is empty.
pub fn is_empty(lits: &[Lit]) -> bool
    ensures { result ≡ is_empty lits.now }
{
    lits.is_empty()
}
