//! Entries as bytes.
ghost use Rattle.std.specs.Prelude.{◌≡◌, ◌-◌, ◌≤◌, ◌++◌, length, map, drop, IfOk, OnOk, OnErr, All};
ghost use Rattle.cnf_core.specs.Literals.{code_of, literal_of_code};
ghost use Rattle.lrat_log.specs.Packed.{kind_number, literal_numbers, hint_numbers, packed_numbers};
ghost use Rattle.lrat_log.specs.Steps.Unpacked.{values, counted_list, kind_of_number, IsWord, IsCode, IsCountedList};
ghost use Rattle.lrat_log.specs.Steps.Heads.{head_numbers, front_of};

use crate::Kind;
use crate::numbers::{number_at, push_number};
use cnf_core::{Lit, NoMemory};

/// The number of a kind.
pub fn number_of(kind: Kind) -> u64
    ensures { result ≡ kind_number kind }
{
    match kind {
        Kind::Learnt => 0,
        Kind::Unit => 1,
        Kind::Core => 2,
        Kind::Empty => 3,
        Kind::Import => 4,
    }
}

/// The kind of a number.
pub fn kind_of(number: u64) -> Kind
    ensures { result ≡ kind_of_number number }
{
    match number {
        0 => Kind::Learnt,
        1 => Kind::Unit,
        2 => Kind::Core,
        3 => Kind::Empty,
        _ => Kind::Import,
    }
}

/// Puts literals behind the bytes, behind their count.
pub fn push_lits(bytes: &mut Vec<u8>, lits: &[Lit]) -> Result<(), NoMemory>
    ensures bytes { OnOk result (bytes.new.items ≡ bytes.old.items ++ packed_numbers (literal_numbers lits.now)) }
    ensures words { OnOk result (All IsWord (literal_numbers lits.now)) }
    ensures codes { OnOk result (All (λ l. IsCode (code_of l)) lits.now) }
{
    push_number(bytes, lits.len() as u64)?;
    for lit in lits {
        push_number(bytes, u64::from(lit.code()))?;
    }
    Ok(())
}

/// Puts hints of an entry behind the bytes, behind their count.
pub fn push_hints(bytes: &mut Vec<u8>, id: u64, hints: &[u64]) -> Result<(), NoMemory>
    requires { All (λ h. h ≤ id) hints.now }
    ensures bytes { OnOk result (bytes.new.items ≡ bytes.old.items ++ packed_numbers (hint_numbers id hints.now)) }
    ensures words { OnOk result (All IsWord (hint_numbers id hints.now)) }
{
    push_number(bytes, hints.len() as u64)?;
    for hint in hints {
        push_number(bytes, id - *hint)?;
    }
    Ok(())
}

/// What an entry is for, and how far its query number and its clock are behind those of the entry before.
#[derive(Clone, Copy, Debug)]
pub struct Head {
    pub kind: Kind,
    pub query_step: u64,
    pub clock_step: u32,
}

/// Puts what an entry is for, and the two steps, behind the bytes.
fn push_head(bytes: &mut Vec<u8>, head: Head) -> Result<(), NoMemory>
    ensures bytes { OnOk result (bytes.new.items ≡ bytes.old.items ++ packed_numbers (head_numbers head)) }
    ensures words { OnOk result (All IsWord (head_numbers head)) }
{
    push_number(bytes, number_of(head.kind))?;
    push_number(bytes, head.query_step)?;
    push_number(bytes, u64::from(head.clock_step))?;
    Ok(())
}

/// Puts the bytes of an entry in the place of others, and answers where its hints begin.
pub fn pack(
    bytes: &mut Vec<u8>,
    head: Head,
    lits: &[Lit],
    id: u64,
    hints: &[u64],
) -> Result<usize, NoMemory>
    requires { All (λ h. h ≤ id) hints.now }
    ensures bytes { OnOk result (bytes.new.items ≡ packed_numbers (front_of head lits.now ++ hint_numbers id hints.now)) }
    ensures hints { IfOk result (λ start. start ≡ length (packed_numbers (front_of head lits.now))) }
    ensures words { OnOk result (All IsWord (front_of head lits.now ++ hint_numbers id hints.now)) }
    ensures codes { OnOk result (All (λ l. IsCode (code_of l)) lits.now) }
{
    bytes.clear();
    push_head(bytes, head)?;
    push_lits(bytes, lits)?;
    let start = bytes.len();
    push_hints(bytes, id, hints)?;
    Ok(start)
}

/// Appends literals that follow on their count, from a place on, to a list. Without memory for them the list stays as it was.
pub fn append_lits(bytes: &[u8], start: usize, lits: &mut Vec<Lit>) -> Result<(), NoMemory>
    requires { IsCountedList IsCode (values (drop start bytes.now)) }
    ensures ok { OnOk result (lits.new.items ≡ lits.old.items ++ map literal_of_code (counted_list (values (drop start bytes.now)))) }
    ensures err { OnErr result (lits.new.items ≡ lits.old.items) }
{
    let count = number_at(bytes, start);
    lits.reserve(count.value as usize)?;
    let mut at = count.end;
    for _k in 0..count.value {
        let code = number_at(bytes, at);
        lits.push_reserved(Lit::from_code(code.value as u32));
        at = code.end;
    }
    Ok(())
}

/// Appends hints of an entry that follow on their count, from a place on, to a list. Without memory for them the list stays as it was.
pub fn append_hints(
    bytes: &[u8],
    start: usize,
    id: u64,
    hints: &mut Vec<u64>,
) -> Result<(), NoMemory>
    requires { IsCountedList (λ d. d ≤ id) (values (drop start bytes.now)) }
    ensures ok { OnOk result (hints.new.items ≡ hints.old.items ++ map (λ d. id - d) (counted_list (values (drop start bytes.now)))) }
    ensures err { OnErr result (hints.new.items ≡ hints.old.items) }
{
    let count = number_at(bytes, start);
    hints.reserve(count.value as usize)?;
    let mut at = count.end;
    for _k in 0..count.value {
        let below = number_at(bytes, at);
        hints.push_reserved(id - below.value);
        at = below.end;
    }
    Ok(())
}
