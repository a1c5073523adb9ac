//! Answers as text, written and read back: the verdict, and a line for each literal of the backbone, or of what is
//! known of it.
#![tactic(auto)]

mod answer;
mod laws;
mod read;
mod stage;
mod write;

pub use answer::Answer;
pub use laws::{text_of_an_answer_reads_back, what_is_read_is_the_text};
pub use read::{ANSWER_LIMIT, AnswerEnd, read_answer};
pub use write::{WriteFault, write_answer};

#[cfg(test)]
mod tests;
