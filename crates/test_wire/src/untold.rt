//! A link in memory that tells proofs nothing about its bytes.
ghost use Rattle.test_wire.specs.Untolds.{untold_view};

use sp_base::{Link, LinkRead, LinkWrite};
use sp_fakes::MemLink;

/// A link in memory, whose bytes proofs don't see.
#[derive(Drop)]
pub struct Untold {
    pub link: MemLink,
}

impl Link for Untold {
    ghost seen = { λ u. untold_view u.link };

    fn place(&self) -> u32 {
        self.link.place()
    }

    fn read(&mut self, buf: &mut [u8]) -> LinkRead {
        self.link.read(buf)
    }

    fn write(&mut self, buf: &[u8]) -> LinkWrite {
        self.link.write(buf)
    }

    fn shut(&mut self) {
        self.link.shut();
    }
}
