//! Where a report is printed, in memory.
use std::alloc::Global;
use std::cell::RefCell;
use std::fmt::Display;
use std::io;
use std::io::ErrorKind;

/// What was printed; it may fail at every piece.
#[derive(Drop)]
pub struct Page {
    alloc: Global,
    text: RefCell<Vec<u8>>,
    fails: bool,
}

impl Page {
    /// An empty page.
    pub fn new(alloc: Global, fails: bool) -> Page {
        Page {
            alloc,
            text: RefCell::new(Vec::new(alloc)),
            fails,
        }
    }

    /// Takes what was printed.
    pub fn take(&self) -> Vec<u8> {
        let mut taken = Vec::new(self.alloc);
        if let Ok(mut text) = self.text.try_borrow_mut() {
            let _ = taken.append(&mut *text);
        }
        taken
    }

    fn add(&self, piece: &[u8]) -> io::Result<()> {
        if self.fails {
            return Err(io::Error::from(ErrorKind::BrokenPipe));
        }
        match self.text.try_borrow_mut() {
            Ok(mut text) => match text.extend_from_slice(piece) {
                Ok(()) => Ok(()),
                Err(_) => Err(io::Error::from(ErrorKind::OutOfMemory)),
            },
            Err(_) => Err(io::Error::from(ErrorKind::Other)),
        }
    }
}

impl Print for Page {
    fn print<D: Display + Drop>(&self, value: D) -> io::Result<()> {
        match format!(in self.alloc; "{value}") {
            Ok(text) => self.add(text.as_bytes()),
            Err(_) => Err(io::Error::from(ErrorKind::OutOfMemory)),
        }
    }

    fn println<D: Display + Drop>(&self, value: D) -> io::Result<()> {
        self.print(value)?;
        self.add(b"\n")
    }

    fn write_all(&self, bytes: &[u8]) -> io::Result<()> {
        self.add(bytes)
    }
}
