//! Calls of shelves and sinks, each with what it answers.
use adv_shelf::{Failed, GetFault, PutFault, Shelf, Sink, read_all, write_all};
use std::alloc::Global;
use std::process::Abort;

/// A call of a shelf.
#[derive(Clone, Copy)]
pub enum Call<'a> {
    /// A read from a place on into a buffer of three bytes, or into an empty one.
    Read {
        name: &'a str,
        from: u64,
        empty: bool,
        gives: Result<&'a [u8], Failed>,
    },
    /// A put.
    Put {
        name: &'a str,
        bytes: &'a [u8],
        gives: Result<(), PutFault>,
    },
    /// A whole file, of at most so many bytes.
    Whole {
        name: &'a str,
        most: u64,
        gives: Result<&'a [u8], GetFault>,
    },
}

/// A read into three bytes.
pub fn read<'a>(name: &'a str, from: u64, gives: Result<&'a [u8], Failed>) -> Call<'a> {
    Call::Read {
        name,
        from,
        empty: false,
        gives,
    }
}

/// A read into none.
pub fn read_none(name: &str) -> Call<'_> {
    Call::Read {
        name,
        from: 0,
        empty: true,
        gives: Ok(b""),
    }
}

pub fn put<'a>(name: &'a str, bytes: &'a [u8], gives: Result<(), PutFault>) -> Call<'a> {
    Call::Put { name, bytes, gives }
}

pub fn whole<'a>(name: &'a str, most: u64, gives: Result<&'a [u8], GetFault>) -> Call<'a> {
    Call::Whole { name, most, gives }
}

/// Reads, and compares what came.
fn reads<S: Shelf>(
    rt: &impl Abort,
    shelf: &mut S,
    name: &str,
    from: u64,
    buf: &mut [u8],
    gives: Result<&[u8], Failed>,
) {
    let same = match (shelf.read_at(name, from, buf), gives) {
        (Ok(count), Ok(wanted)) => &buf[..count] == wanted,
        (Err(fault), Err(wanted)) => fault == wanted,
        _ => false,
    };
    assert!(rt; same, "{name} from {from}");
}

/// Reads a whole file, and compares what came.
fn reads_whole<S: Shelf>(
    rt: &impl Abort,
    alloc: Global,
    shelf: &mut S,
    name: &str,
    most: u64,
    gives: Result<&[u8], GetFault>,
) {
    let got = read_all(alloc, shelf, name, most);
    let same = match (&got, gives) {
        (Ok(bytes), Ok(wanted)) => bytes.as_slice() == wanted,
        (Err(fault), Err(wanted)) => *fault == wanted,
        _ => false,
    };
    assert!(rt; same, "{name}, at most {most}");
}

/// Each call of the list, one after the other, gives what is said.
pub fn answers<S: Shelf>(rt: &impl Abort, alloc: Global, shelf: &mut S, calls: &[Call<'_>]) {
    for call in calls {
        match *call {
            Call::Read {
                name,
                from,
                empty: false,
                gives,
            } => reads(rt, shelf, name, from, &mut [0; 3], gives),
            Call::Read {
                name,
                from,
                gives,
                ..
            } => reads(rt, shelf, name, from, &mut [], gives),
            Call::Put { name, bytes, gives } => {
                assert!(rt; shelf.put(name, bytes) == gives, "{name}");
            }
            Call::Whole { name, most, gives } => {
                reads_whole(rt, alloc, shelf, name, most, gives);
            }
        }
    }
}

/// A call of a sink.
#[derive(Clone, Copy)]
pub enum Write<'a> {
    /// One write, and how many bytes it takes.
    Once(&'a [u8], Result<usize, Failed>),
    /// All of the bytes.
    All(&'a [u8], Result<(), Failed>),
}

/// Each write of the list, one after the other, gives what is said.
pub fn takes<O: Sink>(rt: &impl Abort, sink: &mut O, writes: &[Write<'_>]) {
    for write in writes {
        match *write {
            Write::Once(piece, gives) => assert!(rt; sink.write(piece) == gives),
            Write::All(bytes, gives) => assert!(rt; write_all(sink, bytes) == gives),
        }
    }
}
