//! The files of a case.
use crate::catalogues::catalogue;
use crate::scene::spread;
use adv_shelf::{MemShelf, Shelf};
use std::alloc::Global;
use std::process::Abort;

/// What stands in the files CAT, LOAD and CONF: a catalogue by its name or, behind `=`, its text, and two texts. `~` stands
/// for a line feed.
#[derive(Clone, Copy)]
pub(crate) struct Files<'a> {
    pub(crate) cat: &'a str,
    pub(crate) load: &'a str,
    pub(crate) conf: &'a str,
}

impl Files<'_> {
    /// The bytes of the three.
    fn bytes(&self, rt: &impl Abort, alloc: Global) -> (Vec<u8>, Vec<u8>, Vec<u8>) {
        let cat = catalogue(rt, alloc, self.cat);
        let load = spread(rt, alloc, self.load);
        (cat, load, spread(rt, alloc, self.conf))
    }

    /// A shelf with the files.
    pub(crate) fn shelf(&self, rt: &impl Abort, alloc: Global) -> MemShelf {
        let (cat, load, conf) = self.bytes(rt, alloc);
        let mut shelf = MemShelf::new(alloc).expect(rt, "memory");
        for (name, bytes) in [("CAT", &cat), ("LOAD", &load), ("CONF", &conf)] {
            shelf.put(name, bytes.as_slice()).expect(rt, "a put");
        }
        shelf
    }

    /// A shelf has the files as they were.
    pub(crate) fn assert_kept(&self, rt: &impl Abort, alloc: Global, shelf: &MemShelf) {
        let (cat, load, conf) = self.bytes(rt, alloc);
        for (name, bytes) in [("CAT", &cat), ("LOAD", &load), ("CONF", &conf)] {
            assert_eq!(rt; shelf.file(name), Some(bytes.as_slice()), "{name}");
        }
    }
}
