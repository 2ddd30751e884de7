//! A net with one link, whose peer reads slowly. It shows nothing of what the link carries.
ghost use Rattle.std.specs.Prelude.{◌≡◌, ◌≤◌, None, true, false};
ghost use Rattle.test_node.specs.SlowNets.{link_view, net_view};

use sp_base::{
    Addr, Bytes, Link, LinkRead, LinkWrite, Linked, Listened, ListenerSchemes, Net, Scheme,
};
use std::alloc::Global;

/// A link that takes at most `take` bytes at a write, then nothing once, and at most `most` bytes in all.
#[derive(Drop)]
pub struct SlowLink {
    // What the peer sends, and the number of its bytes that came.
    sent: Bytes,
    offset: usize,
    written: Vec<u8>,
    take: usize,
    most: usize,
    // At the next write it takes nothing.
    rests: bool,
    scheme: Scheme,
    faults: u64,
    idles: u64,
    stalls: u64,
    opened: bool,
}

impl SlowLink {
    /// A link whose peer sends these bytes. It takes at most `take` bytes at a write, and `most` in all.
    pub fn new(alloc: Global, sent: Bytes, take: usize, most: usize) -> SlowLink {
        SlowLink {
            sent,
            offset: 0,
            written: Vec::new(alloc),
            take,
            most,
            rests: false,
            scheme: Scheme::Tcp,
            faults: 0,
            idles: 0,
            stalls: 0,
            opened: true,
        }
    }

    /// What was written.
    pub fn written(&self) -> &[u8] {
        &self.written
    }

    /// Returns whether it may be read and written.
    pub fn is_open(&self) -> bool {
        self.opened
    }

    // The number of bytes that it takes now, of `wanted`.
    fn room(&self, wanted: usize) -> usize
        ensures { result ≤ wanted }
    {
        if self.rests {
            0
        } else {
            wanted
                .min(self.take)
                .min(self.most.saturating_sub(self.written.len()))
        }
    }

    // The link as it is handed out.
    fn placed(self, scheme: Scheme) -> SlowLink
        ensures { link_view result ≡ record { place = 0; scheme = scheme; came = None; written = None; faults = 0; idles = 0; stalls = 0; is_open = true; ended = false } }
    {
        let SlowLink {
            sent,
            offset: _,
            mut written,
            take,
            most,
            rests: _,
            scheme: _,
            faults: _,
            idles: _,
            stalls: _,
            opened: _,
        } = self;
        written.clear();
        SlowLink {
            sent,
            offset: 0,
            written,
            take,
            most,
            rests: false,
            scheme,
            faults: 0,
            idles: 0,
            stalls: 0,
            opened: true,
        }
    }
}

impl Link for SlowLink {
    ghost seen = { link_view };

    fn place(&self) -> u32 {
        0
    }

    fn read(&mut self, buf: &mut [u8]) -> LinkRead {
        let bytes = self.sent.as_slice();
        if self.offset >= bytes.len() {
            self.idles = self.idles.saturating_add(1);
            return LinkRead::NotYet;
        }
        let rest = &bytes[self.offset..];
        let n = rest.len().min(buf.len());
        buf[..n].copy_from_slice(&rest[..n]);
        self.offset += n;
        LinkRead::Got(n)
    }

    fn write(&mut self, buf: &[u8]) -> LinkWrite {
        let n = self.room(buf.len());
        if n == 0 {
            self.rests = false;
            self.stalls = self.stalls.saturating_add(1);
            return LinkWrite::NotYet;
        }
        self.rests = true;
        if self.written.extend_from_slice(&buf[..n]).is_ok() {
            return LinkWrite::Took(n);
        }
        self.faults = self.faults.saturating_add(1);
        LinkWrite::Failed
    }

    fn shut(&mut self) {
        self.opened = false;
    }
}

/// A net whose one link comes to the listener that is asked first. Nobody is there to be dialed.
#[derive(Drop)]
pub struct SlowNet {
    schemes: ListenerSchemes,
    link: Option<SlowLink>,
    back: Option<SlowLink>,
    opened: u32,
    faults: u64,
    idles: u64,
}

impl SlowNet {
    /// A net that hands out this link.
    pub fn new(alloc: Global, link: SlowLink) -> SlowNet {
        SlowNet {
            schemes: ListenerSchemes::new(alloc),
            link: Some(link),
            back: None,
            opened: 0,
            faults: 0,
            idles: 0,
        }
    }

    /// The link, where it was given back.
    pub fn returned(&self) -> Option<&SlowLink> {
        self.back.as_ref()
    }
}

impl Net for SlowNet {
    type L = SlowLink;

    ghost seen = { net_view };

    fn listen(&mut self, addr: &Addr) -> Listened {
        match self.schemes.add(addr.scheme()) {
            Ok(number) => Listened::At(number),
            Err(_) => {
                self.faults = self.faults.saturating_add(1);
                Listened::Failed
            }
        }
    }

    fn accept(&mut self, at: u32) -> Linked<SlowLink> {
        let scheme = self.schemes.scheme(at);
        if self.opened == 0 {
            if let Some(link) = self.link.take() {
                self.opened = 1;
                return Linked::Got(link.placed(scheme));
            }
        }
        self.idles = self.idles.saturating_add(1);
        Linked::NotYet
    }

    fn dial(&mut self, _addr: &Addr) -> Linked<SlowLink> {
        self.idles = self.idles.saturating_add(1);
        Linked::NotYet
    }

    fn give_back(&mut self, link: SlowLink) {
        self.back = Some(link);
    }
}
