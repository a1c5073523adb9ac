//! Drop lines in the order of the models that they take.
ghost use Rattle.std.specs.Prelude.{◌≡◌, ◌<◌, Some, IfOk, slice_get, length};
ghost use Rattle.bone_check.specs.Steps.Dropping.{IsNext, IsChained, AreNamed, link};

use cnf_core::NoMemory;
use std::alloc::Global;
use std::marker::Model;
use witness_text::WitnessLine;

/// For each model the places of the lines that take it, in their order: where the first stands, and for each
/// line where the next one does. The place behind the last line stands for none.
///
/// It is made in one pass over the lines.
#[derive(Drop)]
pub struct Chains {
    first: Vec<usize>,
    next: Vec<usize>,
}

impl Model for Chains {
    ghost use Rattle.bone_check.specs.Steps.Dropping.{Links};

    ghost Value = { Links };

    ghost view = { λ c. record { first = c.first.items; next = c.next.items } };
}

impl Chains {
    /// The chains of lines that take some of so many models.
    pub fn new(alloc: Global, models: u64, drops: &[WitnessLine]) -> Result<Chains, NoMemory>
        requires { AreNamed models drops.now }
        ensures { IfOk result (λ chains. IsChained drops.now 0 models chains) }
    {
        let mut first = vec![in alloc; drops.len(); models as usize]?;
        let mut next = vec![in alloc; drops.len(); drops.len()]?;
        for place in (0..drops.len()).rev() {
            let model = line_at(drops, place).model as usize;
            next[place] = place_at(&first, model);
            first[model] = place;
        }
        Ok(Chains { first, next })
    }

    /// Where the first line stands that takes the model.
    pub fn first(&self, model: u64) -> usize
        requires { model < length self.now.first }
        ensures { result ≡ link self.now.first model }
    {
        self.first[model as usize]
    }

    /// Where the next line stands that takes the model of the line at this place.
    pub fn next(&self, place: usize) -> usize
        requires { place < length self.now.next }
        ensures { result ≡ link self.now.next place }
    {
        self.next[place]
    }
}

/// The line at a place.
pub fn line_at(drops: &[WitnessLine], place: usize) -> WitnessLine
    requires { place < length drops.now }
    ensures { slice_get drops.now place ≡ Some result }
{
    drops[place]
}

/// The place of this number.
fn place_at(places: &[usize], number: usize) -> usize
    requires { number < length places.now }
    ensures { result ≡ link places.now number }
{
    places[number]
}
