/// The witness that a variable can have the other value: a stored model, as it is or with the variable
/// flipped.
#[derive(Clone, Copy, Debug, PartialEq, Eq)]
pub struct Witness {
    /// The variable, from 1.
    pub var: u32,
    /// The place of the model in its store, from 0.
    pub model: u32,
    /// Whether the variable is flipped.
    pub flip: bool,
}
