//! Files in memory, what a run makes of them, and scripts of runs.
use crate::files::Files;
use adv_shelf::{MemShelf, MemSink, Shelf};
use cophy_core::run;
use std::alloc::Global;
use std::mem;
use std::process::Abort;

/// The words of a line, with one space between them.
pub(crate) fn split(rt: &impl Abort, alloc: Global, line: &str) -> Vec<String> {
    let mut words = Vec::new(alloc);
    for word in line.split(' ') {
        if !word.is_empty() {
            let word = String::from_str(alloc, word).expect(rt, "memory");
            words.push(word).expect(rt, "memory");
        }
    }
    words
}

/// A text in which `~` stands for a line feed.
pub(crate) fn spread(rt: &impl Abort, alloc: Global, text: &str) -> Vec<u8> {
    let mut bytes = Vec::new(alloc);
    for byte in text.as_bytes() {
        let byte = if *byte == b'~' { b'\n' } else { *byte };
        bytes.push(byte).expect(rt, "memory");
    }
    bytes
}

/// A number.
pub(crate) fn number(rt: &impl Abort, text: &str) -> u64 {
    text.parse::<u64>().expect(rt, "a number")
}

/// The status and the output of a command line over a shelf, with room for so many bytes.
pub(crate) fn told<S: Shelf>(
    rt: &impl Abort,
    alloc: Global,
    line: &str,
    shelf: &mut S,
    room: usize,
) -> (u8, Vec<u8>) {
    let mut out = MemSink::with_capacity(alloc, room).expect(rt, "memory");
    let words = split(rt, alloc, line);
    let outcome = run(alloc, words.as_slice(), shelf, &mut out);
    let text = Vec::from_slice(alloc, out.bytes()).expect(rt, "memory");
    (outcome.status, text)
}

/// A text with `#` in the place of the digits behind `nodes`, of which there are some, and the last such number.
fn without_nodes(rt: &impl Abort, alloc: Global, text: &[u8]) -> (Vec<u8>, u64) {
    let mut kept = Vec::new(alloc);
    let mut nodes: u64 = 0;
    for byte in text {
        let digit = byte.wrapping_sub(b'0') as u64;
        if digit < 10 && kept.as_slice().ends_with(b"nodes #") {
            assert!(rt; nodes > 0, "a leading zero");
            nodes = nodes.saturating_mul(10).saturating_add(digit);
        } else {
            let is_first = kept.as_slice().ends_with(b"nodes ");
            assert!(rt; digit < 10 || !is_first, "no number of nodes");
            if is_first {
                nodes = digit;
            }
            let byte = if is_first { b'#' } else { *byte };
            kept.push(byte).expect(rt, "memory");
        }
    }
    (kept, nodes)
}

/// The number on the line of an output that begins with a word.
fn number_on(rt: &impl Abort, out: &[u8], word: &str) -> u64 {
    for line in out.split(|byte| *byte == b'\n') {
        if let Some(text) = line.strip_prefix(word.as_bytes()) {
            return number(rt, str::from_utf8(text).expect(rt, "a number"));
        }
    }
    panic!(rt; "no line begins with {word}")
}

/// The files of a case on a shelf, what the last run over it told, also with `#` in the place of each number of nodes, and what
/// stands aside for comparison: another shelf, and what was told there.
#[derive(Drop)]
struct Scene<'a> {
    files: Files<'a>,
    shelf: MemShelf,
    room: usize,
    status: u8,
    text: Vec<u8>,
    plain: Vec<u8>,
    nodes: u64,
    other: MemShelf,
    other_status: u8,
    other_text: Vec<u8>,
}

/// A scene with these files.
fn scene_of<'a>(rt: &impl Abort, alloc: Global, files: Files<'a>) -> Scene<'a> {
    Scene {
        files,
        shelf: files.shelf(rt, alloc),
        room: 2000,
        status: 0,
        text: Vec::new(alloc),
        plain: Vec::new(alloc),
        nodes: 0,
        other: files.shelf(rt, alloc),
        other_status: 0,
        other_text: Vec::new(alloc),
    }
}

/// What changes a scene.
impl<'a> Scene<'a> {
    /// Begins anew with these files.
    fn open(&mut self, rt: &impl Abort, alloc: Global, files: Files<'a>) {
        self.shelf = files.shelf(rt, alloc);
        self.files = files;
        self.room = 2000;
    }

    /// Puts so many copies of a text into a file.
    fn put(&mut self, rt: &impl Abort, alloc: Global, name: &str, copy: &str, count: u64) {
        let copy = spread(rt, alloc, copy);
        let mut bytes = Vec::new(alloc);
        for _ in 0..count {
            bytes
                .extend_from_slice(copy.as_slice())
                .expect(rt, "memory");
        }
        self.shelf.put(name, bytes.as_slice()).expect(rt, "a put");
    }

    /// Runs a command line.
    fn run(&mut self, rt: &impl Abort, alloc: Global, words: &str) {
        let room = self.room;
        let (status, text) = told(rt, alloc, words, &mut self.shelf, room);
        let (plain, nodes) = without_nodes(rt, alloc, text.as_slice());
        self.status = status;
        self.text = text;
        self.plain = plain;
        self.nodes = nodes;
    }

    /// Sets aside what was told.
    fn mark(&mut self, alloc: Global) {
        self.other_status = self.status;
        self.other_text = mem::replace(&mut self.text, Vec::new(alloc));
    }

    /// Sets aside the shelf too, and begins anew with the files.
    fn set_aside(&mut self, rt: &impl Abort, alloc: Global) {
        let files = self.files;
        let next = files.shelf(rt, alloc);
        self.other = mem::replace(&mut self.shelf, next);
        self.room = 2000;
    }

    /// Takes the part of a step that changes the scene.
    fn act(
        &mut self,
        rt: &impl Abort,
        alloc: Global,
        verb: &str,
        (first, second, third): (&'a str, &'a str, &'a str),
    ) {
        match verb {
            "files" => {
                let files = Files {
                    cat: first,
                    load: second,
                    conf: third,
                };
                self.open(rt, alloc, files);
            }
            "put" => self.put(rt, alloc, first, second, 1),
            "copies" => self.put(rt, alloc, first, second, number(rt, third)),
            "fail" => self.shelf.fail_at(number(rt, first)).expect(rt, "memory"),
            "room" => self.room = first.parse::<usize>().expect(rt, "a number"),
            "any" | "same" => self.run(rt, alloc, first),
            "run" | "nodes" | "begins" | "ends" => self.run(rt, alloc, second),
            "mark" => self.mark(alloc),
            "aside" => {
                self.mark(alloc);
                self.set_aside(rt, alloc);
            }
            _ => {}
        }
    }
}

/// What looks at a scene.
impl Scene<'_> {
    /// The status and the output are the wanted ones, or the output's front or end is, or what is left of it without the numbers of
    /// nodes.
    fn tells(&self, rt: &impl Abort, alloc: Global, how: &str, status: &str, text: &str) {
        let wanted = spread(rt, alloc, text);
        let wanted = wanted.as_slice();
        let found = self.text.as_slice();
        let holds = match how {
            "begins" => found.starts_with(wanted),
            "ends" => found.ends_with(wanted),
            "nodes" => self.plain.as_slice() == wanted,
            _ => found == wanted,
        };
        let holds = holds && self.status as u64 == number(rt, status);
        assert!(rt; holds, "not {status} {text}");
    }

    /// The status and the output are those that were set aside.
    fn tells_the_same(&self) -> bool {
        let same = self.text.as_slice() == self.other_text.as_slice();
        same && self.status == self.other_status
    }

    /// The output is a front of the text that was set aside, of so many bytes, and the status is 4.
    fn tells_a_front(&self, room: usize) -> bool {
        let front = self.other_text.as_slice().get(..room);
        self.status == 4 && Some(self.text.as_slice()) == front
    }

    /// A file has these bytes.
    fn has(&self, rt: &impl Abort, alloc: Global, name: &str, text: &str) -> bool {
        let wanted = spread(rt, alloc, text);
        self.shelf.file(name) == Some(wanted.as_slice())
    }

    /// A file has the bytes that one of the other shelf has.
    fn is_like(&self, name: &str, other: &str) -> bool {
        self.shelf.file(name) == self.other.file(other)
    }

    /// The last output has a number behind a word: one of two, or one from the first to the second.
    fn has_number(
        &self,
        rt: &impl Abort,
        how: &str,
        (word, first, second): (&str, &str, &str),
    ) -> bool {
        let found = number_on(rt, self.text.as_slice(), word);
        let first = number(rt, first);
        let second = number(rt, second);
        if how == "either" {
            found == first || found == second
        } else {
            first <= found && found <= second
        }
    }

    /// The last search made an odd number of nodes, in a range that is written with a dash.
    fn has_odd_nodes(&self, rt: &impl Abort, range: &str) -> bool {
        let (least, most) = range.split_once('-').expect(rt, "a range");
        let found = self.nodes;
        found % 2 == 1 && number(rt, least) <= found && found <= number(rt, most)
    }

    /// The last run advised, and its output begins with a text.
    fn has_advised(&self, rt: &impl Abort, alloc: Global, text: &str) -> bool {
        let front = spread(rt, alloc, text);
        self.status <= 1 && self.text.as_slice().starts_with(front.as_slice())
    }

    /// Takes the part of a step that judges.
    fn judge(
        &self,
        rt: &impl Abort,
        alloc: Global,
        verb: &str,
        (first, second, third): (&str, &str, &str),
    ) {
        let holds = match verb {
            "same" => self.tells_the_same(),
            "advice" => self.has_advised(rt, alloc, first),
            "odd" => self.has_odd_nodes(rt, first),
            "either" | "within" => self.has_number(rt, verb, (first, second, third)),
            "file" => self.has(rt, alloc, first, second),
            "like" => self.is_like(first, second),
            "none" => self.shelf.file(first).is_none(),
            "some" => self.shelf.file(first).is_some(),
            _ => true,
        };
        assert!(rt; holds, "{verb} {first}");
        match verb {
            "run" | "nodes" | "begins" | "ends" => self.tells(rt, alloc, verb, first, third),
            "kept" => self.files.assert_kept(rt, alloc, &self.shelf),
            _ => {}
        }
    }
}

/// With less and less room than the text needs that was told aside, a run writes a front of it and ends with status 4. A file is
/// then as on the other shelf, whatever the run before left of PROOF; the files of the case are as they were.
fn write_fronts<'a>(
    rt: &impl Abort,
    alloc: Global,
    given: Scene<'a>,
    (words, name): (&str, &str),
) -> Scene<'a> {
    let mut scene = given;
    for room in 0..scene.other_text.len() {
        scene.put(rt, alloc, "PROOF", "old", 1);
        scene.room = room;
        scene.run(rt, alloc, words);
        let holds = scene.tells_a_front(room) && scene.is_like(name, name);
        assert!(rt; holds, "{words}, room {room}");
        scene.files.assert_kept(rt, alloc, &scene.shelf);
    }
    scene
}

/// Whether a step is one of those that scripts have.
fn is_known(verb: &str) -> bool {
    let verbs =
        " files put copies fail room any same run nodes begins ends mark aside advice odd either within file like none some kept fronts ";
    verbs.split(' ').any(|known| known == verb)
}

/// The three parts of a text with bars between them. What isn't there is empty.
fn three(text: &str) -> (&str, &str, &str) {
    let (first, rest) = text.split_once('|').unwrap_or((text, ""));
    let (second, third) = rest.split_once('|').unwrap_or((rest, ""));
    (first, second, third)
}

/// Plays a script, a step each line: a verb, and up to three parts with bars between them. In texts `~` stands for a line feed.
///
/// - `files CAT|LOAD|CONF` begins anew with these files, and with room for 2000 bytes of output; `put NAME|TEXT` puts a file,
///   `copies NAME|TEXT|COUNT` one of so many copies; behind `fail N` the Nth call of the shelf fails; `room N` gives the output
///   other room; `any WORDS` runs a command line.
/// - `run STATUS|WORDS|TEXT` runs one and compares what it tells; so do `begins` and `ends` for a front and an end of it, and
///   `nodes` for what is told with `#` in the place of the number of nodes, which `odd LEAST-MOST` then compares.
/// - `either WORD|A|B` and `within WORD|A|B` compare the number behind a word; `advice TEXT` says that it was advice that begins so.
/// - `file NAME|TEXT` says what is in a file, `none NAME` and `some NAME` whether it is there, and `kept` that CAT, LOAD and CONF
///   are as they were.
/// - `mark` sets aside what was told last, `aside` the shelf too, and begins anew with the files. `same WORDS` tells the same as
///   that, `like NAME|OTHER` has in a file what is in the other there, and of `fronts WORDS|NAME` see `write_fronts`.
pub(crate) fn play(rt: &impl Abort, alloc: Global, script: &str) {
    let files = Files {
        cat: "EMPTY",
        load: "",
        conf: "",
    };
    let mut scene = scene_of(rt, alloc, files);
    for line in script.lines() {
        let (verb, rest) = line.split_once(' ').unwrap_or((line, ""));
        assert!(rt; is_known(verb), "a verb that is none");
        let parts = three(rest);
        scene.act(rt, alloc, verb, parts);
        scene.judge(rt, alloc, verb, parts);
        if verb == "fronts" {
            scene = write_fronts(rt, alloc, scene, (parts.0, parts.1));
        }
    }
}

/// A script with the parts of a line, which have bars between them, in the places of `$0$`, `$1$` and so on.
fn filled(rt: &impl Abort, alloc: Global, script: &str, line: &str) -> String {
    let mut text = String::new(alloc);
    for (turn, piece) in script.split('$').enumerate() {
        let piece = if turn % 2 == 0 {
            piece
        } else {
            let place = piece.parse::<usize>().expect(rt, "a place");
            line.split('|').nth(place).expect(rt, "a part")
        };
        text.push_str(piece).expect(rt, "memory");
    }
    text
}

/// Plays a script with the parts of each line of a table in its places.
pub(crate) fn walk(rt: &impl Abort, alloc: Global, script: &str, table: &str) {
    for line in table.lines() {
        let script = filled(rt, alloc, script, line);
        play(rt, alloc, script.as_str());
    }
}
