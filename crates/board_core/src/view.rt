use crate::Opened;
use std::collections::LinkedList;

/// A variable, and the stamp with which it was published.
#[derive(Clone, Copy, Debug, PartialEq, Eq)]
pub struct Stamped {
    pub var: u32,
    pub stamp: u32,
}

/// What one worker has done and seen, as contracts see it. No value of it is made.
pub struct View {
    pub about: Opened,
    /// Its place in the list of views.
    pub number: u32,
    /// It was joined to the root, which has its lists now.
    pub spent: bool,
    /// The last word that it knows of each group.
    pub seen: LinkedList<u64>,
    /// The word that its last load of each group found.
    pub loaded: LinkedList<u64>,
    /// How often it loaded each group.
    pub loads: LinkedList<u64>,
    /// The variables that it dropped.
    pub drops: LinkedList<u32>,
    /// The variables that it fixed.
    pub fixes: LinkedList<u32>,
    /// Of the root alone: the number of the next view.
    pub next: u32,
    /// Of the root alone: the numbers of the views that were split off and not joined.
    pub out: LinkedList<u32>,
    /// What it published.
    pub published: LinkedList<Stamped>,
    /// What it was told of others' fixed variables.
    pub imports: LinkedList<Stamped>,
    /// How often it looked for each variable's origin.
    pub looks: LinkedList<u64>,
}
