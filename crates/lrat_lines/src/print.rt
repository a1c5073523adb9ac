ghost use Rattle.std.specs.Prelude.{◌≡◌, ◌++◌, length, take, OnOk, OnErr};
ghost use Rattle.std.specs.Prelude.{◌^◌, All};
ghost use Rattle.cnf_core.specs.Literals.{AreWithin, IsWithin};
ghost use Rattle.lrat_lines.specs.Printed.{number_bytes, literal_bytes, numbers_bytes, literals_bytes, line_bytes, line_text, IsPrintable};
ghost use Rattle.lrat_lines.specs.Printed.{IsInMemory, IsWide};

use crate::Line;
use cnf_core::{Lit, NoMemory};
use itoa::Buffer;

/// Appends the printed spelling of a line, with its line feed. All its ids are at least 1. Without
/// memory for the whole line the text stays as it was. A line that was printed has numbers that lines in memory have.
pub fn print_line(line: &Line, out: &mut Vec<u8>) -> Result<(), NoMemory>
    requires { IsPrintable line.now }
    ensures ok { OnOk result (out.new.items ≡ out.old.items ++ line_text line.now) }
    ensures err { OnErr result (out.new.items ≡ out.old.items) }
    ensures in_memory { OnOk result (IsInMemory line.now) }
{
    let before = out.len();
    let pushed = push_line(line, out);
    if pushed.is_err() {
        out.truncate(before);
    }
    pushed
}

/// Appends the line, or a front of it.
fn push_line(line: &Line, out: &mut Vec<u8>) -> Result<(), NoMemory>
    ensures ok { OnOk result (out.new.items ≡ out.old.items ++ line_text line.now) }
    ensures front { OnErr result (take (length out.old.items) out.new.items ≡ out.old.items) }
    ensures in_memory { OnOk result (IsInMemory line.now) }
{
    push_line_bytes(line, out)?;
    out.push(b'\n')?;
    Ok(())
}

/// The line without its line feed.
fn push_line_bytes(line: &Line, out: &mut Vec<u8>) -> Result<(), NoMemory>
    ensures ok { OnOk result (out.new.items ≡ out.old.items ++ line_bytes line.now) }
    ensures front { OnErr result (take (length out.old.items) out.new.items ≡ out.old.items) }
    ensures in_memory { OnOk result (IsInMemory line.now) }
{
    match line {
        Line::Add { id, lits, hints } => {
            push_number(*id, out)?;
            push_literals(lits.as_slice(), out)?;
            push_numbers(hints.as_slice(), out)
        }
        Line::Delete { id, ids } => {
            push_number(*id, out)?;
            push_bytes(b"d ", out)?;
            push_numbers(ids.as_slice(), out)
        }
    }
}

/// Bytes as they are.
fn push_bytes(bytes: &[u8], out: &mut Vec<u8>) -> Result<(), NoMemory>
    ensures ok { OnOk result (out.new.items ≡ out.old.items ++ bytes.now) }
    ensures front { OnErr result (take (length out.old.items) out.new.items ≡ out.old.items) }
{
    out.extend_from_slice(bytes)?;
    Ok(())
}

/// A number with a space behind it.
fn push_number(number: u64, out: &mut Vec<u8>) -> Result<(), NoMemory>
    ensures ok { OnOk result (out.new.items ≡ out.old.items ++ number_bytes number) }
    ensures front { OnErr result (take (length out.old.items) out.new.items ≡ out.old.items) }
{
    let mut digits = Buffer::new();
    push_bytes(digits.format(number).as_bytes(), out)?;
    push_bytes(b" ", out)
}

/// A literal with a space behind it.
fn push_literal(lit: Lit, out: &mut Vec<u8>) -> Result<(), NoMemory>
    ensures ok { OnOk result (out.new.items ≡ out.old.items ++ literal_bytes lit) }
    ensures front { OnErr result (take (length out.old.items) out.new.items ≡ out.old.items) }
    ensures within { IsWithin (2 ^ 20) lit }
{
    let mut digits = Buffer::new();
    push_bytes(digits.format(lit.number()).as_bytes(), out)?;
    push_bytes(b" ", out)
}

/// The numbers and the 0 that ends them.
#[tactic(auto, using(crate::proofs::Fronts::front_kept))]
fn push_numbers(numbers: &[u64], out: &mut Vec<u8>) -> Result<(), NoMemory>
    ensures ok { OnOk result (out.new.items ≡ out.old.items ++ numbers_bytes numbers.now) }
    ensures front { OnErr result (take (length out.old.items) out.new.items ≡ out.old.items) }
    ensures wide { All IsWide numbers.now }
{
    for number in numbers {
        push_number(*number, out)?;
    }
    push_bytes(b"0", out)
}

/// The literals, and the 0 that ends them with a space behind it.
#[tactic(auto, using(crate::proofs::Fronts::front_kept))]
fn push_literals(lits: &[Lit], out: &mut Vec<u8>) -> Result<(), NoMemory>
    ensures ok { OnOk result (out.new.items ≡ out.old.items ++ literals_bytes lits.now) }
    ensures front { OnErr result (take (length out.old.items) out.new.items ≡ out.old.items) }
    ensures within { OnOk result (AreWithin (2 ^ 20) lits.now) }
{
    for lit in lits {
        push_literal(*lit, out)?;
    }
    push_bytes(b"0 ", out)
}
