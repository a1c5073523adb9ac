ghost use Rattle.std.specs.Prelude.{◌≡◌, ◌≢◌, ◌-◌, ◌<◌, ◌≤◌, ◌^◌, [], ◌∷◌, length, map, AllPairs, IfOk};
ghost use Rattle.cnf_core.specs.Literals.{is_true, clause_true, AreWithin, IsWithin};
ghost use Rattle.cnf_core.specs.Formulas.{IsModel};
ghost use Rattle.cnf_gen.specs.Planted.{planted_of, hidden_values, values_drawn, clause_drawn, clauses_drawn};
ghost use Rattle.cnf_gen.specs.Planted.{clause_of_words, second_at, third_at, past, mended, after_four};

use crate::draws::{draw, generator, is_odd};
use cnf_core::{Clause, Formula, Lit, NoMemory};
use rand_pcg::Pcg32;
use std::alloc::Global;

/// The formula of so many variables, from 3 to 2^20, and so many clauses, at most 2^21, that the seed gives.
///
/// First the hidden value of each variable is drawn. Then each clause takes four words: three for its variables,
/// which differ, and one for its signs; where none of its literals is true under the hidden values, the first one
/// is negated. So the hidden values are a model. All variables are shown. The time is linear in the numbers of
/// variables and clauses.
pub fn planted(alloc: Global, vars: u32, clauses: u32, seed: u64) -> Result<Formula, NoMemory>
    requires { (3 ≤ vars) × (vars ≤ 2 ^ 20) × (clauses ≤ 2 ^ 21) }
    ensures value { IfOk result (λ F. F ≡ planted_of vars clauses seed) }
    ensures model { IsModel (planted_of vars clauses seed) (hidden_values vars seed) }
{
    let mut rng = generator(seed);
    let values = draw_values(alloc, vars, &mut rng)?;
    draw_formula(alloc, &values, clauses, &mut rng)
}

/// A value for each of so many variables.
fn draw_values(alloc: Global, vars: u32, rng: &mut Pcg32) -> Result<Vec<bool>, NoMemory>
    ensures { IfOk result (λ values. (values.items, rng.new) ≡ values_drawn vars rng.old) }
{
    let mut values = Vec::with_capacity(alloc, vars as usize)?;
    for _ in 0..vars {
        values.push(is_odd(draw(rng)))?;
    }
    Ok(values)
}

/// The formula over the variables that have these values, with so many clauses, of which each has a true literal.
fn draw_formula(
    alloc: Global,
    values: &[bool],
    clauses: u32,
    rng: &mut Pcg32,
) -> Result<Formula, NoMemory>
    requires { (3 ≤ length values.now) × (length values.now ≤ 2 ^ 20) × (clauses ≤ 2 ^ 21) }
    ensures { IfOk result (λ F. F ≡ record {
      vars = length values.now;
      clauses = (clauses_drawn clauses (length values.now) values.now rng.old).0;
      shown = None;
    }) }
{
    let mut formula = Formula::new(alloc, values.len() as u32);
    for _ in 0..clauses {
        formula.push(draw_clause(alloc, values, rng)?)?;
    }
    Ok(formula)
}

/// The next clause over the variables that have these values, with a literal that is true.
#[tactic(auto, unfolding(crate::specs::Planted::clause_drawn))]
fn draw_clause(alloc: Global, values: &[bool], rng: &mut Pcg32) -> Result<Clause, NoMemory>
    requires { (3 ≤ length values.now) × (length values.now ≤ 2 ^ 20) }
    ensures value { IfOk result (λ c. c ≡ clause_drawn (length values.now) values.now rng.old) }
    ensures within { IfOk result (AreWithin (length values.now)) }
    ensures three { IfOk result (λ c. length c ≡ 3) }
    ensures rest { rng.new ≡ after_four rng.old }
{
    let first = draw(rng);
    let second = draw(rng);
    let third = draw(rng);
    let signs = draw(rng);
    let lits = lits_of_words(values, first, second, third, signs);
    Ok(Clause {
        lits: lits.to_vec(alloc)?,
    })
}

/// The literals that four words give, of which one is true under these values.
fn lits_of_words(values: &[bool], first: u32, second: u32, third: u32, signs: u32) -> [Lit; 3]
    requires { (3 ≤ length values.now) × (length values.now ≤ 2 ^ 20) }
    ensures value { result ≡ clause_of_words (length values.now) values.now first second third signs }
    ensures within { AreWithin (length values.now) result }
    ensures differ { AllPairs (λ k l. k ≢ l) (map (λ l. l.var) result) }
{
    let vars = values.len() as u32;
    let a = first % vars;
    let b = second_of(vars, a, second);
    let c = third_of(vars, a, b, third);
    mended(
        values,
        Lit::new(a + 1, is_odd(signs)),
        Lit::new(b + 1, is_odd(signs / 2)),
        Lit::new(c + 1, is_odd(signs / 4)),
    )
}

/// The place of a clause's second variable, behind the first one by 1 or more.
fn second_of(vars: u32, a: u32, word: u32) -> u32
    requires { (3 ≤ vars) × (vars ≤ 2 ^ 20) × (a < vars) }
    ensures value { result ≡ second_at vars a word }
    ensures within { result < vars }
    ensures differs { result ≢ a }
{
    (a + 1 + word % (vars - 1)) % vars
}

/// The place of a clause's third variable, among those that the first two leave.
fn third_of(vars: u32, a: u32, b: u32, word: u32) -> u32
    requires { (3 ≤ vars) × (vars ≤ 2 ^ 20) × (a < vars) × (b < vars) × (a ≢ b) }
    ensures value { result ≡ third_at vars a b word }
    ensures within { result < vars }
    ensures differs { (result ≢ a) × (result ≢ b) }
{
    past(a.max(b), past(a.min(b), word % (vars - 2)))
}

/// A number's place among all, where one place is left out.
fn past(left_out: u32, place: u32) -> u32
    requires { place < 2 ^ 32 - 1 }
    ensures { result ≡ past left_out place }
{
    if place >= left_out { place + 1 } else { place }
}

/// The three literals, with the first one negated where none is true under these values.
fn mended(values: &[bool], first: Lit, second: Lit, third: Lit) -> [Lit; 3]
    requires { AreWithin (length values.now) (first ∷ second ∷ third ∷ []) }
    ensures value { result ≡ mended values.now first second third }
    ensures within { AreWithin (length values.now) result }
    ensures vars { map (λ l. l.var) result ≡ first.var ∷ second.var ∷ third.var ∷ [] }
{
    let lits = [first, second, third];
    if is_satisfied(&lits, values) {
        lits
    } else {
        [first.negated(), second, third]
    }
}

/// Whether one of the literals is true under these values.
fn is_satisfied(lits: &[Lit], values: &[bool]) -> bool
    requires { AreWithin (length values.now) lits.now }
    ensures { result ≡ clause_true values.now lits.now }
{
    lits.iter().any(|lit| is_true(*lit, values))
}

/// Whether the literal is true under these values.
fn is_true(lit: Lit, values: &[bool]) -> bool
    requires { IsWithin (length values.now) lit }
    ensures { result ≡ is_true values.now lit }
{
    values[lit.var() as usize - 1] == lit.positive()
}
