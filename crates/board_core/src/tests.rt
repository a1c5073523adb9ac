ghost use Rattle.std.specs.Prelude.{◌≡◌, ◌∷◌, [], IfOk, OnOk};
ghost use Rattle.cnf_core.specs.Literals.{IsWithin};
ghost use Rattle.board_core.specs.Boards.{after_all, AreLawful};
ghost use Rattle.board_core.specs.Rules.{IsKept};
ghost use Rattle.board_core.specs.Games.{game, AreCountable};
ghost use Rattle.board_core.specs.Example.{two_units, phases};

use crate::laws::worked_example;
use crate::{Board, Event};
use cnf_core::{Clause, Formula, Lit, NoMemory, Values};
use std::alloc::Global;
use std::test::Fail;

/// The clause of one literal.
fn unit(alloc: Global, lit: Lit) -> Result<Clause, NoMemory>
    ensures { IfOk result (λ clause. clause ≡ lit ∷ []) }
{
    let mut lits = Vec::new(alloc);
    lits.push(lit)?;
    Ok(Clause { lits })
}

/// The clauses 32 and -33 over 33 variables.
fn two_units(alloc: Global) -> Result<Formula, NoMemory>
    ensures { IfOk result (λ F. F ≡ two_units) }
{
    let mut formula = Formula::new(alloc, 33);
    formula.push(unit(alloc, Lit::new(32, true))?)?;
    formula.push(unit(alloc, Lit::new(33, false))?)?;
    Ok(formula)
}

/// All true but 33.
fn phases(alloc: Global) -> Result<Values, NoMemory>
    ensures { IfOk result (λ values. values ≡ phases) }
{
    let mut values = Values::new(alloc, 33)?;
    for var in 1..33 {
        values.set(var, true);
    }
    Ok(values)
}

/// Applies the events in order.
fn apply_all(board: &mut Board, events: &[Event]) -> Result<(), NoMemory>
    requires lawful { AreLawful board.old.about board.old.state events.now }
    requires counts { AreCountable board.old.state events.now }
    requires kept { IsKept board.old.about board.old.state }
    ensures after { OnOk result (board.new ≡ game board.old.about (after_all board.old.state events.now)) }
    ensures kept { OnOk result (IsKept board.new.about board.new.state) }
{
    for event in events {
        board.apply(*event)?;
    }
    Ok(())
}

/// What the root has dropped.
fn root_drops(board: &Board) -> &[u32]
    requires { IsKept board.now.about board.now.state }
{
    board.drops(0)
}

/// What the root has fixed.
fn root_fixes(board: &Board) -> &[u32]
    requires { IsKept board.now.about board.now.state }
{
    board.fixes(0)
}

const EVENTS: [Event; 5] = [
    Event::Load { view: 0, group: 0 },
    Event::Drop {
        view: 0,
        group: 0,
        mask: 1,
    },
    Event::Split,
    Event::Fix {
        view: 1,
        group: 0,
        mask: 2_147_483_648,
    },
    Event::Join { view: 1 },
];

#[test]
fn the_root_takes_in_what_another_view_fixed(rt: HostRuntime) -> Result<(), Fail> {
    let formula = two_units(rt.alloc())?;
    let phases = phases(rt.alloc())?;
    worked_example();
    let mut board = Board::open(rt.alloc(), &formula, &phases)?;
    assert_eq!(rt; (board.word(0), board.word(1)), (4_294_967_295, 1));
    apply_all(&mut board, &EVENTS)?;
    assert_eq!(rt; root_drops(&board), [1].as_slice());
    assert_eq!(rt; root_fixes(&board), [32].as_slice());
    assert_eq!(rt;
        (board.word(0), board.word(1)),
        (9_223_372_041_149_743_102, 1)
    );
    Ok(())
}
