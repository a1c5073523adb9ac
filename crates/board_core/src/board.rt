ghost use Rattle.std.specs.Prelude.{◌≡◌, ◌<◌, ◌≤◌, ◌^◌, false, length, slice_index, IfOk, OnOk, OnErr};
ghost use Rattle.cnf_core.specs.Formulas.{IsModel};
ghost use Rattle.board_core.specs.Subjects.{about, groups};
ghost use Rattle.board_core.specs.Boards.{after, view_at, IsLawful};
ghost use Rattle.board_core.specs.Rules.{IsKept};
ghost use Rattle.board_core.specs.Games.{game, opened, CountFits};
ghost use Rattle.board_core.specs.declared.event.Event.TheVariants.{Load, Drop, Fix, Split, Join, Publish, Origin};

use crate::opening::opening_words;
use crate::stored::StoredView;
use crate::wins::zeros;
use crate::{Event, Opened};
use cnf_core::{Formula, NoMemory, Values};
use std::alloc::Global;
use std::marker::Model;

/// A table of candidates in one thread, with what each view has done and seen. It always keeps the board's rule
/// and that of its clocks.
#[derive(Drop)]
pub struct Board {
    about: Opened,
    words: Vec<u64>,
    origins: Vec<u64>,
    views: Vec<StoredView>,
}

impl Model for Board {
    ghost use Rattle.board_core.specs.Games.{Game};

    ghost Value = { Game };

    ghost use Rattle.board_core.specs.Games.{game_of, IsBoard};

    ghost view = { game_of };

    ghost invariant = { IsBoard };
}

impl Board {
    /// The board of a formula with a variable or more, where the shown variables are alive and none is fixed, and
    /// the root is the only view. The phases are a model of the formula.
    pub fn open(alloc: Global, formula: &Formula, phases: &Values) -> Result<Board, NoMemory>
        requires vars { 0 < formula.now.vars }
        requires phases { IsModel formula.now phases.now }
        ensures opened { IfOk result (λ board. board ≡ opened (about formula.now phases.now)) }
        ensures kept { IfOk result (λ board. IsKept board.about board.state) }
    {
        let words = opening_words(alloc, formula)?;
        let origins = zeros(alloc, formula.vars() as usize)?;
        let root = StoredView::root(alloc, formula)?;
        let mut views = Vec::new(alloc);
        views.push(root)?;
        Ok(Board {
            about: Opened::of(formula, phases),
            words,
            origins,
            views,
        })
    }

    /// The word of a group.
    pub fn word(&self, group: u32) -> u64
        requires { group < groups self.now.about.formula.vars }
        ensures { result ≡ slice_index self.now.state.words group }
    {
        self.words[group as usize]
    }

    /// The variables that a view has dropped, in the order in which it did.
    pub fn drops(&self, view: u32) -> &[u32]
        requires within { view < length self.now.state.views }
        requires unspent { (view_at self.now.state.views view).spent ≡ false }
        ensures { result.now ≡ (view_at self.now.state.views view).drops }
    {
        &self.views[view as usize].drops
    }

    /// The variables that a view has fixed, in the order in which it did.
    pub fn fixes(&self, view: u32) -> &[u32]
        requires within { view < length self.now.state.views }
        requires unspent { (view_at self.now.state.views view).spent ≡ false }
        ensures { result.now ≡ (view_at self.now.state.views view).fixes }
    {
        &self.views[view as usize].fixes
    }

    /// The board after an event, which is lawful. Without memory for it the board stays as it was.
    pub fn apply(&mut self, event: Event) -> Result<(), NoMemory>
        requires lawful { IsLawful self.old.about self.old.state event }
        requires counts { CountFits self.old.state event }
        ensures ok { OnOk result (self.new ≡ game self.old.about (after self.old.state event)) }
        ensures err { OnErr result (self.new ≡ self.old) }
        ensures kept { IsKept self.new.about self.new.state }
    {
        match event {
            Event::Load { view, group } => {
                self.load(view, group);
                Ok(())
            }
            Event::Drop { view, group, mask } => self.drop_bits(view, group, mask),
            Event::Fix { view, group, mask } => self.fix_bits(view, group, mask),
            Event::Split => self.split(),
            Event::Join { view } => self.join(view),
            Event::Publish { view, var, stamp } => self.publish(view, var, stamp),
            Event::Origin { view, var } => self.ask(view, var),
        }
    }

    /// A view loads a group's word.
    fn load(&mut self, view: u32, group: u32)
        requires lawful { IsLawful self.old.about self.old.state (Load view group) }
        requires counts { CountFits self.old.state (Load view group) }
        ensures after { self.new ≡ game self.old.about (after self.old.state (Load view group)) }
        ensures kept { IsKept self.new.about self.new.state }
    {
        let word = self.words[group as usize];
        self.views[view as usize].load(group as usize, word);
    }

    /// A view drops the mask's variables.
    fn drop_bits(&mut self, view: u32, group: u32, mask: u32) -> Result<(), NoMemory>
        requires lawful { IsLawful self.old.about self.old.state (Drop view group mask) }
        ensures ok { OnOk result (self.new ≡ game self.old.about (after self.old.state (Drop view group mask))) }
        ensures err { OnErr result (self.new ≡ self.old) }
        ensures kept { IsKept self.new.about self.new.state }
    {
        let word = self.words[group as usize];
        match self.views[view as usize].drop_bits(group, mask, word) {
            Ok(()) => {
                self.words[group as usize] = word & !u64::from(mask);
                Ok(())
            }
            Err(error) => Err(error),
        }
    }

    /// A view fixes the mask's variables.
    fn fix_bits(&mut self, view: u32, group: u32, mask: u32) -> Result<(), NoMemory>
        requires lawful { IsLawful self.old.about self.old.state (Fix view group mask) }
        ensures ok { OnOk result (self.new ≡ game self.old.about (after self.old.state (Fix view group mask))) }
        ensures err { OnErr result (self.new ≡ self.old) }
        ensures kept { IsKept self.new.about self.new.state }
    {
        let word = self.words[group as usize];
        match self.views[view as usize].fix_bits(group, mask, word) {
            Ok(()) => {
                self.words[group as usize] = word | (u64::from(mask) << 32);
                Ok(())
            }
            Err(error) => Err(error),
        }
    }

    /// The root splits a view off.
    fn split(&mut self) -> Result<(), NoMemory>
        requires lawful { IsLawful self.old.about self.old.state Split }
        ensures ok { OnOk result (self.new ≡ game self.old.about (after self.old.state Split)) }
        ensures err { OnErr result (self.new ≡ self.old) }
        ensures kept { IsKept self.new.about self.new.state }
    {
        let child = self.views[0].child(*self.words.allocator())?;
        self.views.reserve(1)?;
        match self.views[0].split() {
            Ok(()) => {
                self.views.push_reserved(child);
                Ok(())
            }
            Err(error) => Err(error),
        }
    }

    /// The root takes in a view.
    fn join(&mut self, view: u32) -> Result<(), NoMemory>
        requires lawful { IsLawful self.old.about self.old.state (Join view) }
        ensures ok { OnOk result (self.new ≡ game self.old.about (after self.old.state (Join view))) }
        ensures err { OnErr result (self.new ≡ self.old) }
        ensures kept { IsKept self.new.about self.new.state }
    {
        let alloc = *self.words.allocator();
        let root = self.views[0].joined(alloc, &self.views[view as usize])?;
        self.views[0] = root;
        self.views[view as usize] = StoredView::spent(alloc);
        Ok(())
    }

    /// A view publishes a variable.
    fn publish(&mut self, view: u32, var: u32, stamp: u32) -> Result<(), NoMemory>
        requires lawful { IsLawful self.old.about self.old.state (Publish view var stamp) }
        ensures ok { OnOk result (self.new ≡ game self.old.about (after self.old.state (Publish view var stamp))) }
        ensures err { OnErr result (self.new ≡ self.old) }
        ensures kept { IsKept self.new.about self.new.state }
    {
        match self.views[view as usize].publish(var, stamp) {
            Ok(()) => {
                let place = (var - 1) as usize;
                self.origins[place] = self.origins[place] | (u64::from(stamp) + 1);
                Ok(())
            }
            Err(error) => Err(error),
        }
    }

    /// A view looks for a variable's origin.
    fn ask(&mut self, view: u32, var: u32) -> Result<(), NoMemory>
        requires lawful { IsLawful self.old.about self.old.state (Origin view var) }
        requires counts { CountFits self.old.state (Origin view var) }
        ensures ok { OnOk result (self.new ≡ game self.old.about (after self.old.state (Origin view var))) }
        ensures err { OnErr result (self.new ≡ self.old) }
        ensures kept { IsKept self.new.about self.new.state }
    {
        let word = self.origins[(var - 1) as usize];
        self.views[view as usize].ask(var, word)
    }
}
