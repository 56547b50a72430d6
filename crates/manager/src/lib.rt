//! The manager that threads share. It is a sequential state under a lock, the history of its calls, the shares by which it is
//! called, and the ports of devices, which are answered without the lock. crates/uses is a whole program over it.
//!
//! ```rust
//! // `config` is Config::new(64, 100, 3): 64 table frames, room for 100 calls, three shares. `Brand` gives the manager a type of
//! // its own, `B` below.
//! let seed = Seed::new(rt.alloc(), config)?;
//! work::<Brand, _>(&rt, rt.alloc(), seed)
//!
//! fn work<B: Owner, R: Wait>(rt: &R, alloc: Global, seed: Seed) -> Result<(), AllocError>
//!     requires { IsNamedBy seed B.name B.parts B.shares B.room B.frames B.mode B.rows B.most B.handing }
//! {
//!     let Made { manager, rows, mut ports, mut shares, .. } = Manager::<B>::new(alloc, seed)?;
//!     let Some(mut mine) = shares.pop() else { return Ok(()) };
//!     // A call, under the lock: its place in the history, from 1, and its reply. An error says that the history is full.
//!     let answer = manager.call(rt, &rows, &mut mine, Call::Domain { mode: Mode::Strict, width: Width::W39 });
//!     // A hit, without it: the host address, where the port's word states the page, and the length of the history.
//!     let mut port = ports.remove(3);
//!     let (host, count) = port.hit(&rows, 0x1000, Access::Read);
//!     // The port and the share have then seen the whole history.
//!     manager.check_in(rt, &rows, &mut mine, &mut port);
//!     Ok(())
//! }
//! ```
//!
//! `Manager::finish` hands the history out to whoever brings all shares. A manager of `Config::handing_on` goes on up to 2^56 calls:
//! `Manager::hand_on` hands on what it keeps, into the `Epoch` that it was made with.
#![tactic(auto)]

mod book;
mod calls;
mod config;
mod entering;
mod epoch;
mod kept;
pub mod laws;
mod manager;
mod owner;
mod port;
mod quiet;
mod report;
mod report_lines;
mod share;

pub use book::{Book, HistoryFull};
pub use config::{Config, Seed};
pub use epoch::Epoch;
pub use manager::{History, Made, Manager, SharesOut};
pub use owner::Owner;
pub use port::{Port, Rows};
pub use quiet::Quiet;
pub use report::Report;
pub use share::Share;
