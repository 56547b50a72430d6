//! The simulated unit: it translates the requests of devices, by its caches or by a walk through the tables, and forgets what the
//! descriptors of a ring name. It has IOTLB entries, paging-structure cache entries and context-cache entries, and in Caching
//! Mode it also remembers absent pages (legacy mode, second stage alone; own where the public standard leaves it open).
//!
//! ```rust
//! use dmatypes::Progress;
//! use queue::Ring;
//! use unit::Unit;
//! use vtdbits::Descriptor;
//!
//! let mut unit = Unit::new();
//! let mut ring = Ring::new();
//! assert!(rt; ring.submit(Descriptor::IotlbGlobal).is_ok());
//! assert!(rt; unit.step(&mut ring) == Progress::Did);
//! assert!(rt; unit.step(&mut ring) == Progress::Idle);
//! ```
//!
//! A request is `unit.dma(&pool, &contexts, device, address, access, whim)`, where the `Whim` says whether the caches are used and
//! filled; it answers a `Hit` or a `Fault`.
#![tactic(auto)]

mod contexts;
mod entries;
mod filters;
mod hit;
pub mod laws;
mod leaves;
mod lists;
mod lookups;
mod recent;
mod requests;
mod telling;
mod unit;
mod walking;

pub use contexts::Contexts;
pub use hit::Hit;
pub use unit::Unit;
