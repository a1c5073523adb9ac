ghost use Rattle.std.specs.Prelude.{◌≡◌, ℕ, ◌+◌, ◌-◌, ◌*◌, ◌/◌, ◌^◌, ◌<◌, ◌≤◌, ◌++◌, ◌∷◌, [], length, replicate, slice_index, slice_set, IfOk, OnOk, OnErr};
ghost use Rattle.board_core.specs.Subjects.{About};
ghost use Rattle.board_core.specs.Words.{vars_of, cleared, newly, without, with_fixed, met_words};
ghost use Rattle.board_core.specs.Boards.{spent_view, root_view, load_view, drop_view, fix_view, parent, child, joined, without_number, publish_view, origin_view, stamped};
ghost use Rattle.board_core.specs.Games.{shown};

use crate::Stamped;
use crate::opening::opening_words;
use crate::wins::{chained, met_words, vars_of, without_number, zeros};
use cnf_core::{Formula, NoMemory};
use std::alloc::Global;

/// What one view has done and seen. Of a view that was joined to the root nothing is left.
#[derive(Drop)]
pub(crate) struct StoredView {
    pub(crate) spent: bool,
    pub(crate) number: u32,
    pub(crate) seen: Vec<u64>,
    pub(crate) loaded: Vec<u64>,
    pub(crate) loads: Vec<u64>,
    pub(crate) drops: Vec<u32>,
    pub(crate) fixes: Vec<u32>,
    pub(crate) next: u32,
    pub(crate) out: Vec<u32>,
    pub(crate) published: Vec<Stamped>,
    pub(crate) imports: Vec<Stamped>,
    pub(crate) looks: Vec<u64>,
}

impl StoredView {
    /// The root at the opening.
    pub(crate) fn root(alloc: Global, formula: &Formula) -> Result<StoredView, NoMemory>
        ensures { IfOk result (λ h. (a : About) → a.formula ≡ formula.now → shown a h ≡ root_view a) }
    {
        let seen = opening_words(alloc, formula)?;
        let loaded = opening_words(alloc, formula)?;
        let loads = zeros(alloc, seen.len())?;
        let looks = zeros(alloc, formula.vars() as usize)?;
        Ok(StoredView {
            spent: false,
            number: 0,
            seen,
            loaded,
            loads,
            drops: Vec::new(alloc),
            fixes: Vec::new(alloc),
            next: 1,
            out: Vec::new(alloc),
            published: Vec::new(alloc),
            imports: Vec::new(alloc),
            looks,
        })
    }

    /// What is left of a view that was joined.
    pub(crate) fn spent(alloc: Global) -> StoredView
        ensures { (a : About) → shown a result ≡ spent_view }
    {
        StoredView {
            spent: true,
            number: 0,
            seen: Vec::new(alloc),
            loaded: Vec::new(alloc),
            loads: Vec::new(alloc),
            drops: Vec::new(alloc),
            fixes: Vec::new(alloc),
            next: 0,
            out: Vec::new(alloc),
            published: Vec::new(alloc),
            imports: Vec::new(alloc),
            looks: Vec::new(alloc),
        }
    }

    /// It loads a group's word.
    pub(crate) fn load(&mut self, group: usize, word: u64)
        requires seen { group < length self.old.seen.items }
        requires loaded { group < length self.old.loaded.items }
        requires loads { group < length self.old.loads.items }
        requires count { slice_index self.old.loads.items group < 2 ^ 64 - 1 }
        ensures { (a : About) → shown a self.new ≡ load_view group word (shown a self.old) }
    {
        self.seen[group] = word;
        self.loaded[group] = word;
        self.loads[group] += 1;
    }

    /// It clears the mask's alive bits in the group's word. Without memory it stays as it was.
    pub(crate) fn drop_bits(&mut self, group: u32, mask: u32, word: u64) -> Result<(), NoMemory>
        requires seen { group < length self.old.seen.items }
        requires limit { group < 2 ^ 20 }
        ensures ok { OnOk result ((a : About) → shown a self.new ≡ drop_view group mask word (shown a self.old)) }
        ensures err { OnErr result ((a : About) → shown a self.new ≡ shown a self.old) }
    {
        let all = u64::from(mask);
        let won = vars_of(*self.drops.allocator(), group, (word & all) as u32)?;
        self.drops.extend_from_slice(&won)?;
        self.seen[group as usize] = word & !all;
        Ok(())
    }

    /// It sets the mask's fixed bits in the group's word. Without memory it stays as it was.
    pub(crate) fn fix_bits(&mut self, group: u32, mask: u32, word: u64) -> Result<(), NoMemory>
        requires seen { group < length self.old.seen.items }
        requires limit { group < 2 ^ 20 }
        ensures ok { OnOk result ((a : About) → shown a self.new ≡ fix_view group mask word (shown a self.old)) }
        ensures err { OnErr result ((a : About) → shown a self.new ≡ shown a self.old) }
    {
        let won = mask ^ (mask & (word >> 32) as u32);
        let won = vars_of(*self.fixes.allocator(), group, won)?;
        self.fixes.extend_from_slice(&won)?;
        self.seen[group as usize] = word | (u64::from(mask) << 32);
        Ok(())
    }

    /// The view that the root splits off.
    pub(crate) fn child(&self, alloc: Global) -> Result<StoredView, NoMemory>
        ensures { IfOk result (λ h. (a : About) → shown a h ≡ child (shown a self.now)) }
    {
        Ok(StoredView {
            spent: self.spent,
            number: self.next,
            seen: Vec::from_slice(alloc, &self.seen)?,
            loaded: Vec::from_slice(alloc, &self.seen)?,
            loads: zeros(alloc, self.seen.len())?,
            drops: Vec::new(alloc),
            fixes: Vec::new(alloc),
            next: 0,
            out: Vec::new(alloc),
            published: Vec::new(alloc),
            imports: Vec::new(alloc),
            looks: zeros(alloc, self.looks.len())?,
        })
    }

    /// The root splits a view off. Without memory it stays as it was.
    pub(crate) fn split(&mut self) -> Result<(), NoMemory>
        requires { self.old.next < 2 ^ 32 - 1 }
        ensures ok { OnOk result ((a : About) → shown a self.new ≡ parent (shown a self.old)) }
        ensures err { OnErr result ((a : About) → shown a self.new ≡ shown a self.old) }
    {
        self.out.push(self.next)?;
        self.next += 1;
        Ok(())
    }

    /// The root after it took in another view.
    pub(crate) fn joined(&self, alloc: Global, other: &StoredView) -> Result<StoredView, NoMemory>
        requires { length self.now.seen.items ≡ length other.now.seen.items }
        ensures { IfOk result (λ h. (a : About) → shown a h ≡ joined (shown a self.now) (shown a other.now)) }
    {
        Ok(StoredView {
            spent: self.spent,
            number: self.number,
            seen: met_words(alloc, &self.seen, &other.seen)?,
            loaded: Vec::from_slice(alloc, &self.loaded)?,
            loads: Vec::from_slice(alloc, &self.loads)?,
            drops: chained(alloc, &self.drops, &other.drops)?,
            fixes: chained(alloc, &self.fixes, &other.fixes)?,
            next: self.next,
            out: without_number(alloc, other.number, &self.out)?,
            published: chained(alloc, &self.published, &other.published)?,
            imports: chained(alloc, &self.imports, &other.imports)?,
            looks: Vec::from_slice(alloc, &self.looks)?,
        })
    }

    /// It publishes a variable. Without memory it stays as it was.
    pub(crate) fn publish(&mut self, var: u32, stamp: u32) -> Result<(), NoMemory>
        ensures ok { OnOk result ((a : About) → shown a self.new ≡ publish_view var stamp (shown a self.old)) }
        ensures err { OnErr result ((a : About) → shown a self.new ≡ shown a self.old) }
    {
        self.published.push(Stamped { var, stamp })?;
        Ok(())
    }

    /// It looks for a variable's origin, and finds the origin word. Without memory it stays as it was.
    pub(crate) fn ask(&mut self, var: u32, word: u64) -> Result<(), NoMemory>
        requires looks { (0 < var) × (var ≤ length self.old.looks.items) }
        requires count { slice_index self.old.looks.items (var - 1) < 2 ^ 64 - 1 }
        requires word { word ≤ 2 ^ 32 }
        ensures ok { OnOk result ((a : About) → shown a self.new ≡ origin_view var word (shown a self.old)) }
        ensures err { OnErr result ((a : About) → shown a self.new ≡ shown a self.old) }
    {
        if word > 0 {
            self.imports.push(Stamped {
                var,
                stamp: (word - 1) as u32,
            })?;
        }
        self.looks[(var - 1) as usize] += 1;
        Ok(())
    }
}
