/// One step of a board. A view is named by its place, a group by its number from 0. Split and Join are
/// steps of the root, which is the view at place 0.
#[derive(Clone, Copy, Debug, PartialEq, Eq)]
pub enum Event {
    /// The view learns the group's word.
    Load { view: u32, group: u32 },
    /// The view clears the alive bits of the mask.
    Drop { view: u32, group: u32, mask: u32 },
    /// The view sets the fixed bits of the mask.
    Fix { view: u32, group: u32, mask: u32 },
    /// A new view comes, which has seen what the root has seen.
    Split,
    /// The root takes in what the view has done.
    Join { view: u32 },
    /// The view says with which stamp it fixed the variable.
    Publish { view: u32, var: u32, stamp: u32 },
    /// The view asks with which stamp the variable was fixed.
    Origin { view: u32, var: u32 },
}
