// The end over a link.

use crate::Out;
use aas_outside::{Failed, Link, give_all};

/// What is put is given to the link at once.
#[derive(Drop)]
pub struct LinkOut<'a, L: Link> {
    pub link: &'a mut L,
}

impl<'a, L: Link> Out for LinkOut<'a, L> {
    ghost use Rattle.aas_out.specs.LinkTold.{LinkKept, link_kept, link_told};

    ghost Kept = { LinkKept };

    ghost told = { λ out. let link = L.state out.link.now in
        link_told link.sent link.faults (link_kept out.link.ghost_name link.left link.surroundings) };

    fn put(&mut self, bytes: &[u8]) -> Result<(), Failed> {
        give_all(self.link, bytes)
    }
}
