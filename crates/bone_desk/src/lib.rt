//! The outside world as the product sees it: feeds to read, ports to write, and what each call may
//! change.
#![tactic(auto)]

mod counts;
mod desk;
mod front;
mod memory;
mod named;
mod quiet;
mod real;
mod write;

pub use desk::{Act, Desk, Failed, Feed, Port};
pub use memory::{DeskMemory, MemDesk};
pub use named::{NamedDesk, NamedText};
pub use quiet::QuietDesk;
pub use real::RealDesk;
pub use write::{GATHERED, PortBuffer, write_all};

#[cfg(test)]
mod tests;
