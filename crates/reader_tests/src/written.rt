//! How the lines of a table of cases are read.
use std::alloc::Global;
use std::process::Abort;

/// Writes a text behind `out`, in which `~` stands for a line feed, `@` for a tab and `^` for the byte 255.
pub fn add(rt: &impl Abort, out: &mut Vec<u8>, text: &str) {
    for byte in text.as_bytes() {
        let byte = match *byte {
            b'~' => b'\n',
            b'@' => b'\t',
            b'^' => 255,
            other => other,
        };
        out.push(byte).expect(rt, "memory");
    }
}

/// Writes a part so many times behind `out`, as it is.
pub fn repeat(rt: &impl Abort, out: &mut Vec<u8>, part: &[u8], times: u32) {
    for _ in 0..times {
        out.extend_from_slice(part).expect(rt, "memory");
    }
}

/// The bytes for which a text stands.
pub fn written(rt: &impl Abort, alloc: Global, text: &str) -> Vec<u8> {
    let mut out = Vec::new(alloc);
    add(rt, &mut out, text);
    out
}

/// What stands between the bars of a case that has four.
pub fn parts(case: &str) -> Option<(&str, &str, &str, &str, &str)> {
    let (first, rest) = case.split_once('|')?;
    let (second, rest) = rest.split_once('|')?;
    let (third, rest) = rest.split_once('|')?;
    let (fourth, fifth) = rest.split_once('|')?;
    Some((first, second, third, fourth, fifth))
}
