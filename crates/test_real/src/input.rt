//! Standard input as the file `-`: one that ends, one that fails.

use crate::checks::made;
use crate::files::files_give;
use std::alloc::{Allocator, Global};
use std::fs::{Metadata, OpenOptions};
use std::io::{BufRead, Error, ErrorKind, Lines, Read, Result as IoResult};
use std::process::Abort;
use std::rt::{Clock, Files as SystemFiles};
use std::time::Duration;

/// An input that gives `left` bytes, one at a read, and then its end or a fault. Without `waits` it has none at every
/// second read.
#[derive(Clone, Copy, Debug, Drop)]
struct CountedInput {
    left: u32,
    fails: bool,
    waits: bool,
    idle: bool,
}

impl Read for CountedInput {
    fn read(&mut self, buf: &mut [u8]) -> IoResult<usize> {
        let fed = *self;
        self.idle = !fed.idle;
        if fed.idle && !fed.waits {
            let kind = if fed.left % 3 == 0 {
                ErrorKind::Interrupted
            } else {
                ErrorKind::WouldBlock
            };
            return Err(Error::from(kind));
        }
        if fed.left == 0 {
            return if fed.fails {
                Err(Error::from(ErrorKind::BrokenPipe))
            } else {
                Ok(0)
            };
        }
        match buf.first_mut() {
            Some(first) => {
                *first = (fed.left % 251) as u8;
                self.left = fed.left - 1;
                Ok(1)
            }
            None => Ok(0),
        }
    }
}

impl BufRead for CountedInput {
    fn fill_buf(&mut self) -> IoResult<&[u8]> {
        Ok(&[])
    }

    fn consume(&mut self, _amount: usize) {}
}

/// The files of the machine, with this standard input.
#[derive(Drop)]
struct MachineFiles<R: Drop> {
    rt: R,
    input: CountedInput,
}

impl<R: AllocGlobal + Drop> Alloc for MachineFiles<R> {
    type A = Global;

    fn alloc(&self) -> Global {
        self.rt.alloc()
    }
}

impl<R: Drop> Input for MachineFiles<R> {
    type Reader = CountedInput;

    fn read_line<A: Allocator + Clone>(&self, _buf: &mut String<A>) -> IoResult<usize> {
        Ok(0)
    }

    fn lines<A: Allocator>(&self, alloc: A) -> Lines<CountedInput, A> {
        self.input.lines(alloc)
    }

    fn reader(&self) -> CountedInput {
        self.input
    }
}

impl<R: Drop> Clock for MachineFiles<R> {
    fn monotonic(&self) -> IoResult<Duration> {
        Ok(Duration::from_millis(0))
    }

    fn since_1970(&self) -> IoResult<Duration> {
        Ok(Duration::from_millis(0))
    }
}

impl<R: SystemFiles + Drop> SystemFiles for MachineFiles<R> {
    type File = R::File;

    type Dir = R::Dir;

    fn open_file(&self, how: &OpenOptions, path: &str) -> IoResult<R::File> {
        self.rt.open_file(how, path)
    }

    fn open_dir(&self, path: &str) -> IoResult<R::Dir> {
        self.rt.open_dir(path)
    }

    fn metadata(&self, path: &str) -> IoResult<Metadata> {
        self.rt.metadata(path)
    }

    fn symlink_metadata(&self, path: &str) -> IoResult<Metadata> {
        self.rt.symlink_metadata(path)
    }

    fn copy(&self, from: &str, to: &str) -> IoResult<u64> {
        self.rt.copy(from, to)
    }

    fn rename(&self, from: &str, to: &str) -> IoResult<()> {
        self.rt.rename(from, to)
    }

    fn remove_file(&self, path: &str) -> IoResult<()> {
        self.rt.remove_file(path)
    }

    fn create_dir(&self, path: &str) -> IoResult<()> {
        self.rt.create_dir(path)
    }

    fn remove_dir(&self, path: &str) -> IoResult<()> {
        self.rt.remove_dir(path)
    }

    fn remove_dir_all<B: Allocator>(&self, alloc: B, path: &str) -> IoResult<()> {
        self.rt.remove_dir_all(alloc, path)
    }
}

// Checks what standard input gives that has `left` bytes and then fails or ends, and what other files give.
fn input_gives<R: SystemFiles + AllocGlobal + Abort + Clone + Drop>(
    rt: &R,
    left: u32,
    fails: bool,
    waits: bool,
    lines: &str,
) {
    let system = MachineFiles {
        rt: made(rt, rt.clone()),
        input: CountedInput {
            left,
            fails,
            waits,
            idle: false,
        },
    };
    files_give(rt, system, lines);
}

#[test]
fn an_empty_input_is_an_empty_file(rt: HostRuntime) {
    input_gives(&rt, 0, false, true, "empty -");
}

#[test]
fn an_input_gives_all_its_bytes(rt: HostRuntime) {
    input_gives(&rt, 20_000, false, true, "counted 20000 -");
}

// Like a pipe with O_NONBLOCK (open(2)).
#[test]
fn an_input_that_does_not_wait_is_waited_for(rt: HostRuntime) {
    input_gives(&rt, 20_000, false, false, "counted 20000 -");
}

// This is so where bytes came before, too: a part of an input is not a file.
#[test]
fn an_input_that_fails_is_a_fault(rt: HostRuntime) {
    let lines = "
        fails -
        empty /dev/null
    ";
    input_gives(&rt, 0, true, true, lines);
    input_gives(&rt, 1, true, true, lines);
    input_gives(&rt, 20_000, true, true, lines);
}
