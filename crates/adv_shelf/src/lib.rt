//! Files and output: a shelf of named files and a sink of bytes, which count their faults.
//!
//! Anything that keeps files is a `Shelf`, and anything that takes bytes a `Sink`: `DiskShelf` and `StdSink` are the
//! system's, `MemShelf` and `MemSink` are in memory and fail at the calls that they are told. `read_all` and
//! `write_all` work over any. `feed_all` hands a file on in pieces to a `Taker`. A fault is `Failed`, `PutFault` or `GetFault`.
//!
//! ```rust
//! let mut shelf = MemShelf::new(alloc)?;
//! assert_eq!(rt; shelf.put("a", b"hello"), Ok(()));
//! let mut buf = [0; 3];
//! assert_eq!(rt; shelf.read_at("a", 3, &mut buf), Ok(2));
//! assert_eq!(rt; &buf[..2], b"lo".as_slice());
//! assert_eq!(rt; shelf.read_at("b", 0, &mut buf), Err(Failed));
//! assert_eq!(rt; read_all(alloc, &mut shelf, "a", 4).err(), Some(GetFault::TooLong));
//! ```
#![tactic(auto)]

mod failing;
mod feed;
mod mem_shelf;
mod mem_sink;
mod shelf;
mod sink;
mod system;
mod taker;
mod whole;

pub use feed::feed_all;
pub use mem_shelf::MemShelf;
pub use mem_sink::MemSink;
pub use shelf::{Failed, PutFault, Shelf};
pub use sink::Sink;
pub use system::{DiskShelf, StdSink};
pub use taker::Taker;
pub use whole::{GetFault, read_all, write_all};
