//! The links that are to be read: those whose socket was reported ready since a read of it found nothing. Also what
//! else net and pace share.
use mio::event::Source;
use mio::{Events, Interest, Registry, Token};
use std::alloc::Global;
use std::cell::RefCell;
use std::io;
use std::rc::Rc;
use std::sync::Arc;
use std::sync::atomic::{AtomicBool, AtomicU64, Ordering};

/// The token of sockets without a mark: listeners, and those for whose mark there was no memory.
pub(crate) const ANY: Token = Token(usize::MAX);

/// The marks by the tokens of their sockets. A link has its own mark, and a link may be in any thread.
#[derive(Drop)]
struct ReadyMarks {
    ready: Vec<Arc<AtomicBool, Global>>,
    // The tokens that no socket has. There is always room for all of them.
    free: Vec<usize>,
}

/// What links and pace share.
#[derive(Drop)]
struct Notes {
    // Whether a link may have more than it gave, and the machine will not report it again.
    more: AtomicBool,
    // The pace's last tick.
    tick: AtomicU64,
}

/// The registry for the sockets that end a rest, and the marks that a rest sets.
#[derive(Drop)]
pub struct Wakes {
    pub(crate) registry: Registry,
    marks: Rc<RefCell<ReadyMarks>>,
    notes: Arc<Notes, Global>,
    alloc: Global,
}

/// The mark of one socket. Where there was no memory for one, or registering failed, the socket counts as ready.
#[derive(Drop)]
pub(crate) struct Mark {
    place: Option<MarkPlace>,
    notes: Option<Arc<Notes, Global>>,
}

// The mark of a token.
#[derive(Drop)]
struct MarkPlace {
    token: usize,
    ready: Arc<AtomicBool, Global>,
}

impl ReadyMarks {
    // Takes a token that no socket has. Its mark is set to ready.
    fn draw(&mut self, alloc: Global) -> Option<MarkPlace> {
        let token = match self.free.pop() {
            Some(token) => token,
            None => self.grow(alloc)?,
        };
        let ready = Arc::try_clone(self.ready.get(token)?).ok()?;
        ready.store(true, Ordering::SeqCst);
        Some(MarkPlace { token, ready })
    }

    // One more token.
    fn grow(&mut self, alloc: Global) -> Option<usize> {
        let token = self.ready.len();
        self.free.reserve(token.saturating_add(1)).ok()?;
        let ready = Arc::new(alloc, AtomicBool::new(true)).ok()?;
        self.ready.push(ready).ok()?;
        Some(token)
    }

    fn set(&self, token: usize) {
        if let Some(ready) = self.ready.get(token) {
            ready.store(true, Ordering::SeqCst);
        }
    }

    fn set_all(&self) {
        for ready in self.ready.iter() {
            ready.store(true, Ordering::SeqCst);
        }
    }
}

impl Wakes {
    /// No marks yet.
    pub(crate) fn new(registry: Registry, alloc: Global) -> io::Result<Wakes> {
        let marks = ReadyMarks {
            ready: Vec::new(alloc),
            free: Vec::new(alloc),
        };
        let notes = Notes {
            more: AtomicBool::new(false),
            tick: AtomicU64::new(0),
        };
        Ok(Wakes {
            registry,
            marks: Rc::new(alloc, RefCell::new(marks))?,
            notes: Arc::new(alloc, notes)?,
            alloc,
        })
    }

    /// The same marks, for another owner.
    pub(crate) fn share(&self) -> io::Result<Wakes> {
        Ok(Wakes {
            registry: self.registry.try_clone()?,
            marks: self.marks.clone()?,
            notes: Arc::try_clone(&self.notes)?,
            alloc: self.alloc,
        })
    }

    /// The number of marks. A mark that was given back is used again, so this is the largest number of sockets that
    /// ever had one at the same time.
    pub fn marks(&self) -> usize {
        match self.marks.try_borrow() {
            Ok(marks) => marks.ready.len(),
            Err(_) => 0,
        }
    }

    /// A mark for one more socket, which is reported by it from now on. It is set to ready.
    pub(crate) fn mark<S: Source>(&self, socket: &mut S) -> Mark {
        let place = self.place();
        let token = match &place {
            Some(place) => Token(place.token),
            None => ANY,
        };
        let notes = Arc::try_clone(&self.notes).ok();
        let mark = Mark { place, notes };
        let both = Interest::READABLE | Interest::WRITABLE;
        match self.registry.register(socket, token, both) {
            Ok(()) => mark,
            Err(_) => self.unmark(mark),
        }
    }

    fn place(&self) -> Option<MarkPlace> {
        self.marks.try_borrow_mut().ok()?.draw(self.alloc)
    }

    /// Frees the mark for another socket. What is left of it counts as ready. Takes no memory.
    pub(crate) fn unmark(&self, mark: Mark) -> Mark {
        let Mark { place, notes } = mark;
        if let Some(place) = place {
            if let Ok(mut marks) = self.marks.try_borrow_mut() {
                let _ = marks.free.push(place.token);
            }
        }
        Mark { place: None, notes }
    }

    /// Records the sockets that are ready, and returns whether there are any.
    pub(crate) fn note(&self, events: &Events) -> bool {
        let Ok(marks) = self.marks.try_borrow() else {
            return true;
        };
        let mut any = false;
        for event in events.iter() {
            any = true;
            marks.set(event.token().0);
        }
        any
    }

    /// Records that each socket may be ready.
    pub(crate) fn note_all(&self) {
        if let Ok(marks) = self.marks.try_borrow() {
            marks.set_all();
        }
    }

    /// Returns whether a link had more than it gave since the last call.
    pub(crate) fn take_more(&self) -> bool {
        self.notes.more.swap(false, Ordering::SeqCst)
    }

    /// The pace's last tick.
    pub(crate) fn tick(&self) -> u64 {
        self.notes.tick.load(Ordering::SeqCst)
    }

    /// Sets the pace's last tick.
    pub(crate) fn set_tick(&self, tick: u64) {
        self.notes.tick.store(tick, Ordering::SeqCst);
    }
}

impl Mark {
    /// Returns whether the socket may be ready. What is reported from now on counts for the next time.
    pub(crate) fn take(&self) -> bool {
        match &self.place {
            Some(place) => place.ready.swap(false, Ordering::SeqCst),
            None => true,
        }
    }

    /// Returns whether the socket may be ready, for a caller that doesn't look at it now.
    pub(crate) fn is_set(&self) -> bool {
        match &self.place {
            Some(place) => place.ready.load(Ordering::SeqCst),
            None => true,
        }
    }

    /// Records that the socket may still be ready.
    pub(crate) fn set(&self) {
        if let Some(place) = &self.place {
            place.ready.store(true, Ordering::SeqCst);
        }
    }

    /// Records that the socket may have more than was taken from it: the next rest is skipped.
    pub(crate) fn has_more(&self) {
        self.set();
        if let Some(notes) = &self.notes {
            notes.more.store(true, Ordering::SeqCst);
        }
    }
}
