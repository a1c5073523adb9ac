//! Writing whole pieces, and gathering small ones.
ghost use Rattle.std.specs.Prelude.{◌≡◌, ◌≤◌, ◌+◌, [], ◌++◌, length, IsOk, OnOk, OnErr};
ghost use Rattle.bone_desk.specs.declared.desk.Act.TheVariants.{Write};
ghost use Rattle.bone_desk.specs.Told.{Rose, WritesOnly, Gave};
ghost use Rattle.bone_desk.specs.Gives.{GaveFront, Pushed, CutOff};

use crate::{Desk, Failed, Port};
use arrayvec::ArrayVec;
use std::marker::Model;

/// How many bytes a `PortBuffer` gathers.
pub const GATHERED: usize = 4096;

/// Writes all of `bytes` to a port, by as many calls as that takes. At the first failure a front of
/// them was given.
pub fn write_all<D: Desk>(desk: &mut D, port: Port, bytes: &[u8]) -> Result<(), Failed>
    ensures given { OnOk result (Gave port bytes.now (D.told desk.old) (D.told desk.new)) }
    ensures front { OnErr result (GaveFront port bytes.now (D.told desk.old) (D.told desk.new)) }
    ensures only { WritesOnly port (D.told desk.old) (D.told desk.new) }
    ensures cause { OnErr result (Rose (Write port) (D.told desk.old) (D.told desk.new)) }
{
    let mut rest = bytes;
    while !rest.is_empty() {
        let moved = desk.write(port, rest)?;
        rest = &rest[moved..];
    }
    Ok(())
}

/// Gathers small pieces on their way to a port, so that most of them cost no call. It takes no
/// memory.
///
/// A contract sees it as its port and the bytes that wait. `flush` it at the end: what still waits
/// when it's dropped is lost. After a failure nothing waits.
#[derive(Drop)]
pub struct PortBuffer {
    port: Port,
    waiting: ArrayVec<u8, GATHERED>,
}

impl Model for PortBuffer {
    ghost use Rattle.bone_desk.specs.Gives.{Waiting};

    ghost Value = { Waiting };

    ghost view = { λ b. record { port = b.port; bytes = b.waiting.items } };
}

impl PortBuffer {
    /// A buffer in which nothing waits.
    pub fn new(port: Port) -> Self
        ensures { result ≡ record { port = port; bytes = [] } }
    {
        PortBuffer {
            port,
            waiting: ArrayVec::new(),
        }
    }

    /// Adds a piece behind what waits. Where it has no room, what waits is given first, and a long
    /// piece goes with it.
    pub fn push<D: Desk>(&mut self, desk: &mut D, piece: &[u8]) -> Result<(), Failed>
        ensures ok { OnOk result (Pushed piece.now self.old self.new (D.told desk.old) (D.told desk.new)) }
        ensures err { OnErr result (CutOff piece.now self.old (D.told desk.old) (D.told desk.new)) }
        ensures emptied { OnErr result (self.new ≡ record self.old { bytes = [] }) }

        // A piece that has room costs no call.
        ensures kept { length self.old.bytes + length piece.now ≤ GATHERED
            → IsOk result × (self.new ≡ record self.old { bytes = self.old.bytes ++ piece.now }) }
        ensures quiet { length self.old.bytes + length piece.now ≤ GATHERED
            → D.told desk.new ≡ D.told desk.old }
    {
        if self.waiting.try_extend_from_slice(piece).is_ok() {
            return Ok(());
        }
        self.flush(desk)?;
        if self.waiting.try_extend_from_slice(piece).is_ok() {
            return Ok(());
        }
        write_all(desk, self.port, piece)
    }

    /// Gives all that waits to the port. After it nothing waits.
    pub fn flush<D: Desk>(&mut self, desk: &mut D) -> Result<(), Failed>
        ensures given { OnOk result (Gave self.old.port self.old.bytes (D.told desk.old) (D.told desk.new)) }
        ensures front { OnErr result (GaveFront self.old.port self.old.bytes (D.told desk.old) (D.told desk.new)) }
        ensures emptied { self.new ≡ record self.old { bytes = [] } }
        ensures only { WritesOnly self.old.port (D.told desk.old) (D.told desk.new) }
        ensures cause { OnErr result (Rose (Write self.old.port) (D.told desk.old) (D.told desk.new)) }
    {
        let given = write_all(desk, self.port, self.waiting.as_slice());
        self.waiting.clear();
        given
    }
}
