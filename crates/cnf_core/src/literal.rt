ghost use Rattle.std.specs.Prelude.{◌≡◌, ◌+◌, ◌^◌, ◌<◌, ◌≤◌, ◌↔◌, IsNone, IfSome};
ghost use Rattle.cnf_core.specs.Literals.{negated, number_of, code_of, literal_of_code, IsNoLiteral, IsWithin};

use std::marker::Model;

/// The largest variable: 2^20.
pub const MAX_VARS: u32 = 1_048_576;

/// A literal: a variable from 1 to [`MAX_VARS`], as it stands or negated.
///
/// It is one packed number of 32 bits, twice the variable and 1 more where it is negated, so that tables
/// of two entries a variable are indexed by [`Lit::code`]. Literals are ordered by variable, and the
/// variable itself comes before its negation.
#[derive(Clone, Copy, Debug, PartialEq, Eq, PartialOrd, Ord, Hash)]
pub struct Lit {
    code: u32,
}

impl Model for Lit {
    ghost use Rattle.std.specs.Prelude.{ℕ, ◌+◌, ◌*◌, ◌^◌, ◌≤◌};
    ghost use Rattle.std.proofs.Common.{ap};
    ghost use Rattle.cnf_core.specs.Literals.{Literal, code_of, literal_of_code, code_of-literal_of_code};

    ghost Value = { Literal };

    ghost view = { λ l. literal_of_code l.code };

    ghost invariant = { λ l. (2 ≤ l.code) × (l.code ≤ 2 ^ 21 + 1) };

    ghost inverse = { λ l. record { code = code_of l } };

    ghost inverse_ok = { λ a h. ap (λ c. record { code = c }) (code_of-literal_of_code a.code) };
}

impl Lit {
    /// The literal that DIMACS writes as this number: `v` for the variable v, and `-v` for its negation.
    /// There is none exactly for 0 and for magnitudes above [`MAX_VARS`].
    pub fn of(number: i32) -> Option<Lit>
        ensures none { IsNone result ↔ IsNoLiteral number }
        ensures some { IfSome result (λ l. number_of l ≡ number) }
    {
        match number.unsigned_abs() {
            0 => None,
            var if var <= MAX_VARS => Some(Lit::new(var, number > 0)),
            _ => None,
        }
    }

    /// The literal of a variable, from 1 to [`MAX_VARS`], with this sign.
    pub fn new(var: u32, positive: bool) -> Lit
        requires { IsWithin (2 ^ 20) (record { var = var; positive = positive }) }
        ensures { result ≡ record { var = var; positive = positive } }
    {
        Lit {
            code: 2 * var + u32::from(!positive),
        }
    }

    /// The variable, from 1 to [`MAX_VARS`].
    pub fn var(self) -> u32
        ensures value { result ≡ self.var }
        ensures range { (0 < result) × (result ≤ 2 ^ 20) }
    {
        self.code / 2
    }

    /// Whether the literal is the variable itself, and not its negation.
    pub fn positive(self) -> bool
        ensures { result ≡ self.positive }
    {
        self.code % 2 == 0
    }

    /// The literal of the same variable with the other sign.
    pub fn negated(self) -> Lit
        ensures { result ≡ negated self }
    {
        Lit {
            code: self.code ^ 1,
        }
    }

    /// The number that DIMACS writes for the literal.
    pub fn number(self) -> i32
        ensures { result ≡ number_of self }
    {
        let var = self.var() as i32;
        if self.positive() { var } else { -var }
    }

    /// The packed form: twice the variable, and 1 more where the literal is negated.
    pub fn code(self) -> u32
        ensures value { result ≡ code_of self }
        ensures range { (2 ≤ result) × (result < 2 ^ 21 + 2) }
    {
        self.code
    }

    /// The literal of a packed form, from 2 to 2^21 + 1.
    pub fn from_code(code: u32) -> Lit
        requires { (2 ≤ code) × (code < 2 ^ 21 + 2) }
        ensures value { result ≡ literal_of_code code }
        ensures code { code_of result ≡ code }
    {
        Lit { code }
    }
}
