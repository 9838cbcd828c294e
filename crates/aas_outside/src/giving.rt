// All bytes given to a link.
ghost use Rattle.std.specs.Prelude.{◌≡◌, OnOk, OnErr};
ghost use Rattle.std.specs.Io.KnownBytes.{append_known};
ghost use Rattle.aas_outside.specs.Link.{GivesFront, OnlyGives};

use crate::{Failed, Link};

/// Gives all the bytes. Where the link fails a front of them was given.
#[tactic(auto, using(crate::proofs::KnownBytes::given_more))]
pub fn give_all<L: Link>(link: &mut L, bytes: &[u8]) -> Result<(), Failed>
    ensures given { OnOk result ((L.state link.new).sent ≡ append_known (L.state link.old).sent bytes.now) }
    ensures front { OnErr result (GivesFront (L.state link.old).sent (L.state link.new).sent bytes.now) }
    ensures call { OnlyGives (L.state link.old) (L.state link.new) result }
{
    let mut given = 0;
    while given < bytes.len() {
        given += link.give(&bytes[given..])?;
    }
    Ok(())
}
