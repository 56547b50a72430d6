//! A device's request.

use crate::driver::{Driver, STRICT, UNALIGNED_FRAME};
use crate::timing::Work;
use crate::trouble::{Trouble, check};
use dmatypes::{PAGE_BYTES, Whim};
use std::alloc::Global;

const OFFSET: u64 = 0x234;

// The byte address in host memory.
const HOST: u64 = PAGE_BYTES * UNALIGNED_FRAME + OFFSET;

/// Reads at an address of the one live page. The unit remembers the page's leaf, with its tables and the context.
#[derive(Drop)]
pub(crate) struct Request {
    driver: Driver,
    address: u64,
    whim: Whim,
}

impl Request {
    pub(crate) fn new(alloc: Global, look: bool) -> Result<Request, Trouble> {
        let mut driver = Driver::new(alloc, STRICT)?;
        let address = driver.map(UNALIGNED_FRAME, 1, 0)?;
        check(address == PAGE_BYTES)?;
        let address = PAGE_BYTES + OFFSET;
        let filling = Whim {
            look: false,
            fill: true,
        };
        let host = driver.read(address, filling)?;
        check(host == Ok(HOST))?;
        Ok(Request {
            driver,
            address,
            whim: Whim { look, fill: false },
        })
    }
}

impl Work for Request {
    fn once(&mut self) -> Result<(), Trouble> {
        let host = self.driver.read(self.address, self.whim)?;
        check(host == Ok(HOST))
    }
}
