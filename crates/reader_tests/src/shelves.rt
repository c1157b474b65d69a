//! Shelves and sinks in memory, the files of the system, and writers that take nothing.
mod calls;

use crate::shelves::calls::{Write, answers, put, read, read_none, takes, whole};
use adv_shelf::{DiskShelf, Failed, GetFault, MemShelf, MemSink, PutFault, StdSink};
use std::path::AsPath;
use std::process::Abort;
use std::{env, fs, io, process};

#[test]
fn a_shelf_reads_from_a_place_on(rt: HostRuntime) {
    let alloc = rt.alloc();
    let mut shelf = MemShelf::new(alloc).expect(&rt, "memory");
    assert!(rt; shelf.file("a") == None);
    let calls = [
        put("a", b"hallo", Ok(())),
        put("b", b"", Ok(())),
        put("a", b"hello", Ok(())),
        read("a", 0, Ok(b"hel")),
        read("a", 3, Ok(b"lo")),
        read("a", 5, Ok(b"")),
        read("a", 9, Ok(b"")),
        read("a", u64::MAX, Ok(b"")),
        read("b", 0, Ok(b"")),
        read("c", 0, Err(Failed)),
        read_none("c"),
    ];
    answers(&rt, alloc, &mut shelf, &calls);
    assert!(rt; shelf.file("a") == Some(b"hello".as_slice()));
}

#[test]
fn calls_of_a_shelf_are_counted_in_one_sequence(rt: HostRuntime) {
    let alloc = rt.alloc();
    let mut shelf = MemShelf::new(alloc).expect(&rt, "memory");
    answers(&rt, alloc, &mut shelf, &[put("a", b"old", Ok(()))]);
    for call in [0, 4, 2] {
        shelf.fail_at(call).expect(&rt, "memory");
    }
    let first = [
        read("a", 0, Ok(b"old")),
        read_none("a"),
        put("a", b"new", Err(PutFault::Failed)),
    ];
    answers(&rt, alloc, &mut shelf, &first);
    assert!(rt; shelf.file("a") == Some(b"old".as_slice()));
    let then = [
        put("a", b"new", Ok(())),
        read("a", 0, Err(Failed)),
        read("a", 0, Ok(b"new")),
    ];
    answers(&rt, alloc, &mut shelf, &then);
}

#[test]
fn a_whole_file_is_read_up_to_a_limit(rt: HostRuntime) {
    let alloc = rt.alloc();
    let long = vec![in alloc; 7; 70000].expect(&rt, "memory");
    let long = long.as_slice();
    let mut shelf = MemShelf::new(alloc).expect(&rt, "memory");
    let calls = [
        put("long", long, Ok(())),
        put("empty", b"", Ok(())),
        whole("long", 70000, Ok(long)),
        whole("long", 70001, Ok(long)),
        whole("long", u64::MAX, Ok(long)),
        whole("long", 69999, Err(GetFault::TooLong)),
        whole("long", 65535, Err(GetFault::TooLong)),
        whole("long", 0, Err(GetFault::TooLong)),
        whole("none", 70000, Err(GetFault::Failed)),
        whole("empty", 0, Ok(b"")),
    ];
    answers(&rt, alloc, &mut shelf, &calls);
    // The second of three reads.
    shelf.fail_at(2).expect(&rt, "memory");
    let failed = [whole("long", 70000, Err(GetFault::Failed))];
    answers(&rt, alloc, &mut shelf, &failed);
}

#[test]
fn a_sink_takes_what_it_has_room_for(rt: HostRuntime) {
    let mut sink = MemSink::with_capacity(rt.alloc(), 7).expect(&rt, "memory");
    sink.fail_at(3).expect(&rt, "memory");
    let writes = [
        Write::All(b"ab", Ok(())),
        Write::Once(b"", Ok(0)),
        Write::Once(b"c", Err(Failed)),
        Write::Once(b"cd", Ok(2)),
        Write::All(b"efgh", Err(Failed)),
        Write::Once(b"", Ok(0)),
    ];
    takes(&rt, &mut sink, &writes);
    assert!(rt; sink.bytes() == b"abcdefg".as_slice());
}

/// A folder is no file, and a file needs its folder.
#[test]
fn real_files_are_put_and_read(rt: HostRuntime) {
    let alloc = rt.alloc();
    let folder = env::temp_dir(&rt).expect(&rt, "a folder");
    let name = format!(in alloc; "adv_shelf-{}", process::id(rt.process())).expect(&rt, "memory");
    let path = folder.join(alloc, name.as_str()).expect(&rt, "memory");
    let path = path.path_text();
    let folder = folder.path_text();
    let long = vec![in alloc; 7; 70000].expect(&rt, "memory");
    let long = long.as_slice();
    let mut shelf = DiskShelf::new(&rt);
    let calls = [
        whole(path, 70000, Err(GetFault::Failed)),
        put(path, long, Ok(())),
        whole(path, 70000, Ok(long)),
        whole(path, 69999, Err(GetFault::TooLong)),
        put(path, b"short", Ok(())),
        whole(path, 70000, Ok(b"short")),
        read_none("no such file"),
        whole(folder, 9, Err(GetFault::Failed)),
        put(folder, b"x", Err(PutFault::Failed)),
        put("no such folder/x", b"x", Err(PutFault::Failed)),
    ];
    answers(&rt, alloc, &mut shelf, &calls);
    fs::remove_file(&rt, path).expect(&rt, "the file");
}

/// A writer that takes nothing, and says so by an error or by a count.
#[derive(Drop)]
struct Refusing(bool);

impl io::Write for Refusing {
    fn write(&mut self, _buf: &[u8]) -> io::Result<usize> {
        if self.0 {
            Err(io::Error::from(io::ErrorKind::Other))
        } else {
            Ok(0)
        }
    }

    fn flush(&mut self) -> io::Result<()> {
        Ok(())
    }
}

#[test]
fn the_standard_output_is_a_sink(rt: HostRuntime) {
    let mut sink = StdSink::new(io::writer(&rt));
    takes(
        &rt,
        &mut sink,
        &[Write::All(b"to the standard output\n", Ok(()))],
    );
    for errs in [true, false] {
        let mut sink = StdSink::new(Refusing(errs));
        let writes = [Write::All(b"x", Err(Failed)), Write::All(b"", Ok(()))];
        takes(&rt, &mut sink, &writes);
    }
}
