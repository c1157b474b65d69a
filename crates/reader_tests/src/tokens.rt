//! Tables of texts with their tokens or their fault.
use crate::written::repeat;
use sql_tokens::{Token, TokenFault, TokenKind, TokenReader, tokens};
use std::alloc::Global;
use std::process::Abort;

/// The letter that stands for a kind in the tables below.
fn letter(kind: TokenKind) -> u8 {
    match kind {
        TokenKind::Word => b'w',
        TokenKind::Quoted => b'q',
        TokenKind::Whole => b'n',
        TokenKind::Decimal => b'd',
        TokenKind::Text => b't',
        TokenKind::Symbol => b's',
        TokenKind::Weight => b'#',
    }
}

/// Puts a token behind the others, as its letter and its bytes in `[` and `]`.
fn add_token(rt: &impl Abort, out: &mut Vec<u8>, text: &[u8], token: Token) {
    out.push(letter(token.kind)).expect(rt, "memory");
    out.push(b'[').expect(rt, "memory");
    let span = token.span.from as usize..token.span.to as usize;
    out.extend_from_slice(text.get(span).unwrap_or(b"outside"))
        .expect(rt, "memory");
    out.push(b']').expect(rt, "memory");
}

/// A fault, as it prints.
fn told(rt: &impl Abort, alloc: Global, fault: TokenFault) -> String {
    format!(in alloc; "{fault}").expect(rt, "memory")
}

/// The tokens of a text, and its fault.
#[derive(Drop)]
struct Answer {
    tokens: Vec<u8>,
    fault: String,
}

/// What `tokens` gives, which for a text with a fault is the fault alone.
fn all_at_once(rt: &impl Abort, alloc: Global, text: &[u8]) -> Answer {
    let mut out = Vec::new(alloc);
    match tokens(alloc, text) {
        Ok(found) => {
            for token in found.list.as_slice() {
                add_token(rt, &mut out, found.text, *token);
            }
            Answer {
                tokens: out,
                fault: String::new(alloc),
            }
        }
        Err(fault) => Answer {
            tokens: out,
            fault: told(rt, alloc, fault),
        },
    }
}

/// How a call ends that gives no token: at the end of the text, or before its fault.
fn ended(rt: &impl Abort, alloc: Global, call: Result<Option<Token>, TokenFault>) -> String {
    match call {
        Ok(None) => String::new(alloc),
        Ok(Some(_)) => format!(in alloc; "a token").expect(rt, "memory"),
        Err(fault) => told(rt, alloc, fault),
    }
}

/// What a reader gives call by call, up to the first call that gives no token. A call behind that one gives the same.
fn one_by_one(rt: &impl Abort, alloc: Global, text: &[u8]) -> Answer {
    let mut out = Vec::new(alloc);
    let mut reader = TokenReader::new(text);
    let mut last = reader.next_token();
    for _ in 0..text.len() {
        let Ok(Some(token)) = last else {
            break;
        };
        add_token(rt, &mut out, text, token);
        last = reader.next_token();
    }
    let fault = ended(rt, alloc, last);
    let again = ended(rt, alloc, reader.next_token());
    assert!(rt; again.as_str() == fault.as_str(), "a later call, {text:?}");
    Answer { tokens: out, fault }
}

/// Each text, its tokens or those before its first fault, and that fault, with a backslash between them: words, symbols of which
/// the longest stands, numbers, parameters, quoted names, texts, comments, weights, bytes outside ASCII, and several faults.
const TABLE: &str = r#"\\
 @`~\\
SELECT a1,~_b FROM t;\w[SELECT]w[a1]s[,]w[_b]w[FROM]w[t]s[;]\
()*+-/%,.;?\s[(]s[)]s[*]s[+]s[-]s[/]s[%]s[,]s[.]s[;]s[?]\
a&b\w[a]\bad byte at 2
a<>b\w[a]s[<>]w[b]\
<=>=!=<><\s[<=]s[>=]s[!=]s[<>]s[<]\
=<>\s[=]s[<>]\
||||\s[||]s[||]\
|||\s[||]\bad byte at 3
a|b\w[a]\bad byte at 2
a !\w[a]\bad byte at 3
! =\\bad byte at 1
[a]\\bad byte at 1
a:b\w[a]\bad byte at 2
0 007 12.5 .5 1.\n[0]n[007]d[12.5]d[.5]n[1]s[.]\
1.a\n[1]s[.]w[a]\
1..5\n[1]s[.]d[.5]\
.5.5\d[.5]d[.5]\
1.5.5\d[1.5]d[.5]\
-1\s[-]n[1]\
1a\\bad byte at 2
 12_3\\bad byte at 4
1.5_\\bad byte at 4
.5e3\\bad byte at 3
a1\w[a1]\
$1 $12a$3$4\s[$1]s[$12]w[a]s[$3]s[$4]\
$\\bad byte at 1
a$b\w[a]\bad byte at 2
"a b""c"\q["a b"]q["c"]\
"'--/*"\q["'--/*"]\
""\\bad byte at 2
a """\w[a]\bad byte at 4
"\\open text at 1
a "b~c"\w[a]\open text at 3
a"b\w[a]\open text at 2
'' 'a'\t['']t['a']\
'a''b'c\t['a''b']w[c]\
''''\t['''']\
'a'''\t['a''']\
'a~"--/*'\t['a~"--/*']\
x'1'\w[x]t['1']\
SELECT 'ab\w[SELECT]\open text at 8
'\\open text at 1
'ab''\t['ab']\open text at 5
'a''b\t['a']\open text at 4
'''\t['']\open text at 3
a--b~c\w[a]w[c]\
--\\
- -\s[-]s[-]\
a/*b~--*/c\w[a]w[c]\
/**//***/\\
/*/*/a\w[a]\
/*a/*b*/c*/\w[c]s[*]s[/]\
--/*~a\w[a]\
/ *\s[/]s[*]\
/*/\\open text at 1
a /* b *\w[a]\open text at 3
-- weight 5\#[-- weight 5]\
--WeIgHt@ @0010 @`~a\#[--WeIgHt@ @0010]w[a]\
--`@ weight 5~-- weight 6\#[--`@ weight 5]#[-- weight 6]\
SELECT -- weight 5~1\w[SELECT]#[-- weight 5]n[1]\
---weight 5~--- weight 5\\
-- weight5~-- weight~-- weight ~-- weights 5\\
-- weight`5~-- weight 5x~-- weight 5 6~-- weight -5\\
-- weight 5.0~-- a weight 5~/* weight 5 */\\
weight 5\w[weight]n[5]\
caf{}\w[caf]\bad byte at 4
^\\bad byte at 1
'{'"}"--^~/*^*/\t['{']q["}"]\
! 'ab\\bad byte at 1
'ab !\\open text at 1
a~ b 1x '\w[a]w[b]\bad byte at 7
-- weight 5~!\#[-- weight 5]\bad byte at 13
a /* b */ ~'\w[a]\open text at 12
SELECT , !\w[SELECT]s[,]\bad byte at 10"#;

/// The bytes of a text of the table: `~` stands for a line feed, `@` for a tab, `` ` `` for a carriage return, `&` for a vertical
/// tab, `^` for the byte 255, and `{` and `}` for the two bytes of an é.
fn bytes_of(rt: &impl Abort, alloc: Global, text: &str) -> Vec<u8> {
    let mut bytes = Vec::new(alloc);
    for byte in text.as_bytes() {
        let byte = match *byte {
            b'~' => b'\n',
            b'@' => b'\t',
            b'`' => b'\r',
            b'&' => 11,
            b'^' => 255,
            b'{' => 195,
            b'}' => 169,
            other => other,
        };
        bytes.push(byte).expect(rt, "memory");
    }
    bytes
}

/// A text has these tokens all at once, or this fault; and these tokens before it one by one.
fn judge(rt: &impl Abort, alloc: Global, text: &[u8], want: &[u8], fault: &str) {
    let all = all_at_once(rt, alloc, text);
    let want_of_all = if fault.is_empty() { want } else { b"" };
    assert!(rt; all.tokens.as_slice() == want_of_all, "{text:?}");
    assert!(rt; all.fault.as_str() == fault, "{text:?}");
    let read = one_by_one(rt, alloc, text);
    assert!(rt; read.tokens.as_slice() == want, "{text:?}");
    assert!(rt; read.fault.as_str() == fault, "{text:?}");
}

/// Each front of a text gives the same one by one.
fn judge_fronts(rt: &impl Abort, alloc: Global, text: &[u8]) {
    for end in 0..text.len().saturating_add(1) {
        let front = text.get(0..end).unwrap_or(b"outside");
        let all = all_at_once(rt, alloc, front);
        let read = one_by_one(rt, alloc, front);
        assert!(rt; read.fault.as_str() == all.fault.as_str(), "{front:?}");
        let same = read.tokens.as_slice() == all.tokens.as_slice();
        assert!(rt; same || !all.fault.is_empty(), "{front:?}");
    }
}

/// What a line of the table says is so.
fn judge_line(rt: &impl Abort, alloc: Global, line: &str) {
    let (text, rest) = line.split_once('\\').expect(rt, "a text");
    let (want, fault) = rest.split_once('\\').expect(rt, "tokens");
    let text = bytes_of(rt, alloc, text);
    let want = bytes_of(rt, alloc, want);
    judge(rt, alloc, text.as_slice(), want.as_slice(), fault);
    judge_fronts(rt, alloc, text.as_slice());
}

#[test]
fn each_text_has_its_tokens_or_its_fault(rt: HostRuntime) {
    for line in TABLE.lines() {
        judge_line(&rt, rt.alloc(), line);
    }
}

/// Parts whose copies make long tokens, many tokens or long faults, and how many tokens 2 MiB of each have.
const LONG: &[(&[u8], u32, usize)] = &[
    (b"((((((((", 262144, 2097152),
    (b"''''''''", 262144, 1),
    (b"/*/*/*/*/*/*", 174762, 349524),
    (b"1.1.1.1.", 262144, 1048576),
];

#[test]
fn long_texts_are_cut_in_one_pass(rt: HostRuntime) {
    for (part, count, want) in LONG {
        let mut text = Vec::new(rt.alloc());
        repeat(&rt, &mut text, part, *count);
        let length = tokens(rt.alloc(), &text).map(|found| found.list.len());
        assert!(rt; length.ok() == Some(*want));
    }
}
