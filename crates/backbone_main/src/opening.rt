//! Opening what words name.
ghost use Rattle.std.specs.Prelude.{◌≡◌, true, is_some, IsSome, IfErr, OnErr};
ghost use Rattle.backbone_main.specs.Causes.{Acts, turn_of};
ghost use Rattle.backbone_main.specs.Steps.Finish.{IsFailedOpening, Opens};

use crate::ending::Ending;
use bone_desk::{Act, Desk, Failed, Feed, Port};

/// Opens a feed.
pub fn open_feed<D: Desk>(feed: Feed, name: &str, desk: &mut D) -> Result<(), Ending>
    ensures opens { (may : Acts) → may (Act.OpenFeed feed) ≡ true
        → Opens may (turn_of (Act.OpenFeed feed)) (D.told desk.old) (D.told desk.new) }
    ensures refused { IfErr result (λ ending. IsFailedOpening (Act.OpenFeed feed) ending (D.told desk.old) (D.told desk.new)) }
{
    match desk.open_feed(feed, name) {
        Ok(()) => Ok(()),
        Err(Failed) => Err(Ending::Failed(Act::OpenFeed(feed))),
    }
}

/// Opens a port where it is named.
pub fn open_port<D: Desk>(port: Port, name: &Option<String>, desk: &mut D) -> Result<(), Ending>
    ensures opens { (may : Acts) → may (Act.OpenPort port) ≡ is_some name.now
        → Opens may (turn_of (Act.OpenPort port)) (D.told desk.old) (D.told desk.new) }
    ensures named { OnErr result (IsSome name.now) }
    ensures refused { IfErr result (λ ending. IsFailedOpening (Act.OpenPort port) ending (D.told desk.old) (D.told desk.new)) }
{
    match name {
        Some(name) => match desk.open_port(port, name.as_str()) {
            Ok(()) => Ok(()),
            Err(Failed) => Err(Ending::Failed(Act::OpenPort(port))),
        },
        None => Ok(()),
    }
}
