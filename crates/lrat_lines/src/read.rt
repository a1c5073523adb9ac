ghost use Rattle.std.specs.Prelude.{◌≡◌, Err, IfOk, IfErr};
ghost use Rattle.lrat_lines.specs.Grammar.{Gives, literal_item, listed, ended, deletion, addition};
ghost use Rattle.lrat_lines.specs.Grammar.{behind_id, line_of_tokens, line_of};
ghost use Rattle.lrat_lines.specs.Steps.Reading.{listing, place_item};

use crate::token::{IdPlace, Tokens, id_item, literal_item, place_item};
use crate::{Ids, Line, LineEnd};
use cnf_core::Clause;
use std::alloc::Global;

/// The line that a text without its line feed means, or why it means none. The definition is in
/// `specs/Grammar`, over the tokens of the text.
pub fn read_line(alloc: Global, bytes: &[u8]) -> Result<Line, LineEnd>
    ensures { Gives result (line_of bytes.now) }
{
    let mut tokens = Tokens::new(bytes);
    let id = read_own_id(&mut tokens)?;
    read_behind_id(alloc, id, &mut tokens)
}

/// The line's own id, which the tokens begin with.
fn read_own_id(tokens: &mut Tokens) -> Result<u64, LineEnd>
    ensures ok { IfOk result (λ id. line_of_tokens tokens.old ≡ behind_id tokens.new id) }
    ensures err { IfErr result (λ end. line_of_tokens tokens.old ≡ Err end) }
{
    let Some(token) = tokens.next() else {
        return Err(LineEnd::NotEnded);
    };
    match id_item(token)? {
        Some(id) => Ok(id),
        None => Err(LineEnd::BadToken),
    }
}

/// What follows the id: a deletion, or an addition.
fn read_behind_id(alloc: Global, id: u64, tokens: &mut Tokens) -> Result<Line, LineEnd>
    ensures { Gives result (behind_id tokens.old id) }
{
    if tokens.take_word(b"d") {
        read_deletion(alloc, id, tokens)
    } else {
        read_addition(alloc, id, tokens)
    }
}

/// A deletion, from its list of ids on.
fn read_deletion(alloc: Global, id: u64, tokens: &mut Tokens) -> Result<Line, LineEnd>
    ensures { Gives result (deletion id tokens.old) }
{
    let ids = read_ids(alloc, IdPlace::Deleted, tokens)?;
    ended(Line::Delete { id, ids }, tokens)
}

/// An addition, from its literals on.
fn read_addition(alloc: Global, id: u64, tokens: &mut Tokens) -> Result<Line, LineEnd>
    ensures { Gives result (addition id tokens.old) }
{
    let lits = read_literals(alloc, tokens)?;
    let hints = read_ids(alloc, IdPlace::Hint, tokens)?;
    ended(Line::Add { id, lits, hints }, tokens)
}

/// The line, if no token is left.
fn ended(line: Line, tokens: &mut Tokens) -> Result<Line, LineEnd>
    ensures { Gives result (ended line tokens.old) }
{
    match tokens.next() {
        None => Ok(line),
        Some(_) => Err(LineEnd::BadToken),
    }
}

/// The list of literals that the tokens begin with.
fn read_literals(alloc: Global, tokens: &mut Tokens) -> Result<Clause, LineEnd>
    ensures { Gives (listing result tokens.new) (listed literal_item tokens.old) }
{
    let mut lits = Vec::new(alloc);
    while let Some(token) = tokens.next() {
        match literal_item(token)? {
            Some(lit) => lits.push(lit)?,
            None => return Ok(Clause { lits }),
        }
    }
    Err(LineEnd::NotEnded)
}

/// The list of ids that the tokens begin with.
fn read_ids(alloc: Global, place: IdPlace, tokens: &mut Tokens) -> Result<Ids, LineEnd>
    ensures { Gives (listing result tokens.new) (listed (place_item place) tokens.old) }
{
    let mut ids = Vec::new(alloc);
    while let Some(token) = tokens.next() {
        match place_item(place, token)? {
            Some(id) => ids.push(id)?,
            None => return Ok(Ids { ids }),
        }
    }
    Err(LineEnd::NotEnded)
}
