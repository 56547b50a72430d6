//! The words of the command line, as the system has them.

use std::alloc::{Alloc, Global};
use std::env::{Env, FillError};
use std::io;

/// A runtime whose list of words begins behind the program's name. So a name that isn't UTF-8 is never read.
#[derive(Drop)]
struct BehindName<'a, R>(&'a R);

impl<R: Env> Env for BehindName<'_, R> {
    fn arg(&self, i: usize, buf: &mut [u8]) -> Result<usize, FillError> {
        match i.checked_add(1) {
            Some(place) => self.0.arg(place, buf),
            None => Err(FillError::NotPresent),
        }
    }

    fn var(&self, name: &str, buf: &mut [u8]) -> Result<usize, FillError> {
        self.0.var(name, buf)
    }

    fn var_at(&self, i: usize, buf: &mut [u8]) -> Result<usize, FillError> {
        self.0.var_at(i, buf)
    }
}

impl<R: Alloc<A = Global>> Alloc for BehindName<'_, R> {
    type A = Global;

    fn alloc(&self) -> Global {
        self.0.alloc()
    }
}

/// All words behind the program's name. An error where memory lacked (`OutOfMemory`), or a word isn't UTF-8.
pub(crate) fn words<R: Env + Alloc<A = Global>>(rt: &R) -> io::Result<std::env::Args> {
    std::env::args(&BehindName(rt))
}
