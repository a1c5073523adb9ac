ghost use Rattle.std.specs.Prelude.{◌≡◌, ◌+◌, ◌/◌, ◌<◌};

use cnf_core::NoMemory;
use std::alloc::Global;

/// The place of a variable that was never bumped.
const NEVER: u32 = u32::MAX;

/// The place of a variable that was bumped and isn't in the heap now.
const OUTSIDE: u32 = u32::MAX - 1;

/// An activity past this one calls for scaling down.
const MOST: u64 = 1 << 62;

/// Scaling down divides by two to this power.
const SCALE: u32 = 40;

/// The variables that were bumped, in a heap by their activities. Numbers that are no variables are passed over.
#[derive(Debug, Drop)]
pub struct Weights {
    /// The activity of each variable, by its number.
    activities: Vec<u64>,
    /// The place in the heap of each variable, by its number.
    places: Vec<u32>,
    /// A binary heap in its first `count` places: no variable is more active than the one above it.
    heap: Vec<u32>,
    count: u32,
}

impl Weights {
    /// For no variables. It takes no memory.
    pub fn new(alloc: Global) -> Weights {
        Weights {
            activities: Vec::new(alloc),
            places: Vec::new(alloc),
            heap: Vec::new(alloc),
            count: 0,
        }
    }

    /// For the variables 1 to so many, of which none was bumped.
    pub fn of(alloc: Global, vars: u32) -> Result<Weights, NoMemory> {
        let count = vars as usize + 1;
        Ok(Weights {
            activities: vec![in alloc; 0; count]?,
            places: vec![in alloc; NEVER; count]?,
            heap: vec![in alloc; 0; count]?,
            count: 0,
        })
    }

    /// What its memory comes from.
    pub fn allocator(&self) -> Global {
        *self.heap.allocator()
    }

    /// How many variables are in the heap.
    #[inline(always)]
    pub fn count(&self) -> u32
        ensures { result ≡ self.now.count }
    {
        self.count
    }

    /// Adds to a variable's activity, and says whether it calls for scaling down.
    #[inline(always)]
    pub fn bump(&mut self, var: u32, weight: u64) -> bool {
        let Some(activity) = self.activities.get_mut(var as usize) else {
            return false;
        };
        let raised = activity.saturating_add(weight);
        *activity = raised;
        let place = self.place(var);
        if place < OUTSIDE {
            self.rise(var, place);
        } else if place == NEVER {
            self.insert(var);
        }
        raised > MOST
    }

    /// Puts a variable that was bumped back into the heap, where it isn't there.
    #[inline(always)]
    pub fn put_back(&mut self, var: u32) {
        if self.place(var) == OUTSIDE {
            self.insert(var);
        }
    }

    /// Takes the most active variable out of the heap, which isn't empty.
    pub fn pop(&mut self) -> u32
        requires { 0 < self.old.count }
        ensures { self.new.count + 1 ≡ self.old.count }
    {
        let top = self.at(0);
        self.count -= 1;
        let last = self.at(self.count);
        if self.count > 0 {
            self.sink(last);
        }
        self.set_place(top, OUTSIDE);
        top
    }

    /// Scales all activities down. One that isn't 0 stays so, and the heap's order stays.
    #[cold]
    pub fn scale_down(&mut self) {
        for activity in self.activities.iter_mut() {
            *activity = scaled(*activity);
        }
    }

    /// Adds a variable that isn't in the heap.
    fn insert(&mut self, var: u32) {
        let place = self.count;
        if (place as usize) < self.heap.len() && place < OUTSIDE {
            self.count = place + 1;
            self.rise(var, place);
        }
    }

    /// Moves a variable up from a place in the heap to where it belongs.
    fn rise(&mut self, var: u32, from: u32)
        ensures { self.new.count ≡ self.old.count }
    {
        let activity = self.activity(var);
        let mut place = from;
        while place > 0 {
            let above = (place - 1) / 2;
            let other = self.at(above);
            if self.activity(other) >= activity {
                break;
            }
            self.put(place, other);
            place = above;
        }
        self.put(place, var);
    }

    /// Moves a variable down from the top of the heap to where it belongs.
    fn sink(&mut self, var: u32)
        ensures { self.new.count ≡ self.old.count }
    {
        let activity = self.activity(var);
        let mut place = 0;
        while place < self.count / 2 {
            let below = self.more_active_below(place);
            let other = self.at(below);
            if self.activity(other) <= activity {
                break;
            }
            self.put(place, other);
            place = below;
        }
        self.put(place, var);
    }

    /// Of the one or two places below a place in the heap, that of the more active variable.
    #[inline(always)]
    fn more_active_below(&self, place: u32) -> u32
        requires { place < self.now.count / 2 }
        ensures above { place < result }
        ensures within { result < self.now.count }
    {
        let count = self.count;
        let left = 2 * place + 1;
        let right = left + 1;
        if right < count && self.activity(self.at(right)) > self.activity(self.at(left)) {
            return right;
        }
        left
    }

    /// The variable at a place of the heap.
    #[inline(always)]
    fn at(&self, place: u32) -> u32 {
        self.heap.get(place as usize).copied().unwrap_or(0)
    }

    #[inline(always)]
    fn activity(&self, var: u32) -> u64 {
        self.activities.get(var as usize).copied().unwrap_or(0)
    }

    #[inline(always)]
    fn place(&self, var: u32) -> u32 {
        self.places.get(var as usize).copied().unwrap_or(NEVER)
    }

    /// Puts a variable at a place of the heap.
    #[inline(always)]
    fn put(&mut self, place: u32, var: u32)
        ensures { self.new.count ≡ self.old.count }
    {
        if let Some(entry) = self.heap.get_mut(place as usize) {
            *entry = var;
        }
        self.set_place(var, place);
    }

    #[inline(always)]
    fn set_place(&mut self, var: u32, place: u32)
        ensures { self.new.count ≡ self.old.count }
    {
        if let Some(entry) = self.places.get_mut(var as usize) {
            *entry = place;
        }
    }
}

/// An activity divided by the scale; at least 1 where it isn't 0.
#[inline(always)]
pub fn scaled(activity: u64) -> u64 {
    (activity >> SCALE).max(activity.min(1))
}
