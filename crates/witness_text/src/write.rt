//! Writing a witness to its port.
ghost use Rattle.std.specs.Prelude.{◌≡◌, ◌+◌, ◌<◌, ◌≤◌, ◌^◌, ◌++◌, All, AllPairs, length, map, take, drop, decimal, OnOk, OnErr};
ghost use Rattle.bone_desk.specs.Told.{Rose, WritesOnly, Gave};
ghost use Rattle.bone_desk.specs.Gives.{GaveFront, Pushed, CutOff};
ghost use Rattle.cnf_core.specs.Spelling.{literal_text};
ghost use Rattle.model_store.specs.Stores.{model_at, HoldsModels};
ghost use Rattle.model_store.specs.Witnesses.{IsInRange};
ghost use Rattle.witness_text.specs.WitnessText.{
  store_text,
  digit_of,
  model_line,
  model_lines,
  drop_line,
  drop_lines,
  named_by,
  named_drops,
};

use crate::WitnessLine;
use bone_desk::{Act, Desk, Failed, Port, PortBuffer};
use cnf_core::{Formula, Lit};
use itoa::Buffer;
use model_store::{ModelStore, Witness};
use std::error::Error;
use std::fmt;

/// A write to the Witness port failed.
#[derive(Clone, Copy, Debug, PartialEq, Eq)]
pub struct WriteFault;

impl fmt::Display for WriteFault {
    fn fmt<W: fmt::Write>(&self, f: &mut fmt::Formatter<W>) -> fmt::Result {
        write!(f, "the witness could not be written")
    }
}

impl Error for WriteFault {}

impl From<Failed> for WriteFault {
    fn from(_failed: Failed) -> Self {
        WriteFault
    }
}

/// How many digits are made before they are given on.
const CHUNK: u32 = 64;

/// Writes the text of a store's models and drops to the Witness port, and takes no memory. The literal of
/// a drop is the one that the first model makes true. At a fault the port has a front of the text.
///
/// The store has a model, and its models are the formula's. The drops rise by variable, so that the text
/// is in the witness's grammar.
pub fn write_witness<D: Desk>(
    desk: &mut D,
    formula: &Formula,
    models: &ModelStore,
    drops: &[Witness],
) -> Result<(), WriteFault>
    requires same { models.now.formula ≡ formula.now }
    requires some { 0 < length models.now.models }
    requires within { All (IsInRange models.now) drops.now }
    requires rises { AllPairs (λ v w. v.var < w.var) drops.now }
    ensures given { OnOk result (Gave Port.Witness (store_text models.now drops.now) (D.told desk.old) (D.told desk.new)) }
    ensures front { OnErr result (GaveFront Port.Witness (store_text models.now drops.now) (D.told desk.old) (D.told desk.new)) }
    ensures only { WritesOnly Port.Witness (D.told desk.old) (D.told desk.new) }
    ensures cause { OnErr result (Rose (Act.Write Port.Witness) (D.told desk.old) (D.told desk.new)) }
{
    let mut buffer = PortBuffer::new(Port::Witness);
    push_witness(desk, &mut buffer, formula, models, drops)?;
    buffer.flush(desk)?;
    Ok(())
}

/// All lines of the witness.
fn push_witness<D: Desk>(
    desk: &mut D,
    buffer: &mut PortBuffer,
    formula: &Formula,
    models: &ModelStore,
    drops: &[Witness],
) -> Result<(), Failed>
    requires same { models.now.formula ≡ formula.now }
    requires some { 0 < length models.now.models }
    requires within { All (IsInRange models.now) drops.now }
    ensures ok { OnOk result (Pushed (store_text models.now drops.now) buffer.old buffer.new
        (D.told desk.old) (D.told desk.new)) }
    ensures err { OnErr result (CutOff (store_text models.now drops.now) buffer.old
        (D.told desk.old) (D.told desk.new)) }
{
    push_models(desk, buffer, models, formula.vars())?;
    push_drops(desk, buffer, models, drops)
}

/// A line for each model.
fn push_models<D: Desk>(
    desk: &mut D,
    buffer: &mut PortBuffer,
    models: &ModelStore,
    vars: u32,
) -> Result<(), Failed>
    requires vars { vars ≡ models.now.formula.vars }
    requires limit { models.now.formula.vars ≤ 2 ^ 20 }
    ensures ok { OnOk result (Pushed (model_lines models.now.models) buffer.old buffer.new
        (D.told desk.old) (D.told desk.new)) }
    ensures err { OnErr result (CutOff (model_lines models.now.models) buffer.old
        (D.told desk.old) (D.told desk.new)) }
{
    for model in 0..models.len() {
        push_model(desk, buffer, models, model, vars)?;
    }
    Ok(())
}

/// One line for a model.
fn push_model<D: Desk>(
    desk: &mut D,
    buffer: &mut PortBuffer,
    models: &ModelStore,
    model: u32,
    vars: u32,
) -> Result<(), Failed>
    requires model { model < length models.now.models }
    requires vars { vars ≡ models.now.formula.vars }
    requires holds { HoldsModels models.now }
    requires limit { models.now.formula.vars ≤ 2 ^ 20 }
    ensures ok { OnOk result (Pushed (model_line (model_at models.now model)) buffer.old buffer.new
        (D.told desk.old) (D.told desk.new)) }
    ensures err { OnErr result (CutOff (model_line (model_at models.now model)) buffer.old
        (D.told desk.old) (D.told desk.new)) }
{
    buffer.push(desk, b"m")?;
    push_values(desk, buffer, models, model, vars)?;
    buffer.push(desk, b"\n")
}

/// A digit for each variable.
fn push_values<D: Desk>(
    desk: &mut D,
    buffer: &mut PortBuffer,
    models: &ModelStore,
    model: u32,
    vars: u32,
) -> Result<(), Failed>
    requires model { model < length models.now.models }
    requires vars { vars ≡ models.now.formula.vars }
    requires holds { HoldsModels models.now }
    requires limit { models.now.formula.vars ≤ 2 ^ 20 }
    ensures ok { OnOk result (Pushed (map digit_of (model_at models.now model)) buffer.old buffer.new
        (D.told desk.old) (D.told desk.new)) }
    ensures err { OnErr result (CutOff (map digit_of (model_at models.now model)) buffer.old
        (D.told desk.old) (D.told desk.new)) }
{
    for chunk in 0..vars.div_ceil(CHUNK) {
        let first = chunk * CHUNK;
        let count = (vars - first).min(CHUNK);
        push_chunk(desk, buffer, models, model, first, count)?;
    }
    Ok(())
}

/// The digits of so many variables, at most 64, behind the first ones.
fn push_chunk<D: Desk>(
    desk: &mut D,
    buffer: &mut PortBuffer,
    models: &ModelStore,
    model: u32,
    first: u32,
    count: u32,
) -> Result<(), Failed>
    requires model { model < length models.now.models }
    requires vars { first + count ≤ models.now.formula.vars }
    requires limit { models.now.formula.vars ≤ 2 ^ 20 }
    requires count { count ≤ 64 }
    ensures ok { OnOk result (Pushed (map digit_of (take count (drop first (model_at models.now model))))
        buffer.old buffer.new (D.told desk.old) (D.told desk.new)) }
    ensures err { OnErr result (CutOff (map digit_of (take count (drop first (model_at models.now model))))
        buffer.old (D.told desk.old) (D.told desk.new)) }
{
    let mut room = [b'0'; CHUNK as usize];
    let digits = &mut room[..count as usize];
    fill_digits(digits, models, model, first);
    buffer.push(desk, digits)
}

/// Writes the digits of the variables behind the first ones.
fn fill_digits(digits: &mut [u8], models: &ModelStore, model: u32, first: u32)
    requires model { model < length models.now.models }
    requires vars { first + length digits.old ≤ models.now.formula.vars }
    requires limit { models.now.formula.vars ≤ 2 ^ 20 }
    ensures { digits.new ≡ map digit_of (take (length digits.old) (drop first (model_at models.now model))) }
{
    for (i, digit) in digits.iter_mut().enumerate() {
        *digit = digit_of(models.value(model, first + i as u32 + 1));
    }
}

/// The digit of a truth value.
fn digit_of(value: bool) -> u8
    ensures { result ≡ digit_of value }
{
    if value { b'1' } else { b'0' }
}

/// A line for each drop.
fn push_drops<D: Desk>(
    desk: &mut D,
    buffer: &mut PortBuffer,
    models: &ModelStore,
    drops: &[Witness],
) -> Result<(), Failed>
    requires some { 0 < length models.now.models }
    requires within { All (IsInRange models.now) drops.now }
    requires limit { models.now.formula.vars ≤ 2 ^ 20 }
    ensures ok { OnOk result (Pushed (drop_lines (named_drops models.now drops.now)) buffer.old buffer.new
        (D.told desk.old) (D.told desk.new)) }
    ensures err { OnErr result (CutOff (drop_lines (named_drops models.now drops.now)) buffer.old
        (D.told desk.old) (D.told desk.new)) }
{
    for witness in drops {
        push_drop(desk, buffer, named(models, *witness))?;
    }
    Ok(())
}

/// The drop line of a witness, whose literal is the one that the first model makes true.
fn named(models: &ModelStore, witness: Witness) -> WitnessLine
    requires some { 0 < length models.now.models }
    requires within { IsInRange models.now witness }
    requires limit { models.now.formula.vars ≤ 2 ^ 20 }
    ensures { result ≡ named_by (model_at models.now 0) witness }
{
    WitnessLine {
        lit: Lit::new(witness.var, models.value(0, witness.var)),
        model: u64::from(witness.model),
        flip: witness.flip,
    }
}

/// One line for a drop.
fn push_drop<D: Desk>(
    desk: &mut D,
    buffer: &mut PortBuffer,
    line: WitnessLine,
) -> Result<(), Failed>
    ensures ok { OnOk result (Pushed (drop_line line) buffer.old buffer.new (D.told desk.old) (D.told desk.new)) }
    ensures err { OnErr result (CutOff (drop_line line) buffer.old (D.told desk.old) (D.told desk.new)) }
{
    let mut literal = Buffer::new();
    let mut number = Buffer::new();
    push_two(desk, buffer, b"d ", literal_bytes(&mut literal, line.lit))?;
    push_two(desk, buffer, b" ", number_bytes(&mut number, line.model))?;
    buffer.push(desk, &[b' ', digit_of(line.flip), b'\n'])
}

/// Two pieces.
fn push_two<D: Desk>(
    desk: &mut D,
    buffer: &mut PortBuffer,
    first: &[u8],
    second: &[u8],
) -> Result<(), Failed>
    ensures ok { OnOk result (Pushed (first.now ++ second.now) buffer.old buffer.new (D.told desk.old) (D.told desk.new)) }
    ensures err { OnErr result (CutOff (first.now ++ second.now) buffer.old (D.told desk.old) (D.told desk.new)) }
{
    buffer.push(desk, first)?;
    buffer.push(desk, second)
}

/// The literal's number, as bytes in this buffer.
fn literal_bytes(digits: &mut Buffer, lit: Lit) -> &[u8]
    ensures { result.now ≡ literal_text lit }
{
    digits.format(lit.number()).as_bytes()
}

/// The number, as bytes in this buffer.
fn number_bytes(digits: &mut Buffer, number: u64) -> &[u8]
    ensures { result.now ≡ decimal number }
{
    digits.format(number).as_bytes()
}
