//! Which bytes make which tokens.
ghost use Rattle.std.specs.Prelude.{◌≡◌, ◌≤◌, length, drop};
ghost use Rattle.sql_tokens.specs.Byte.{has, class_of, begins};

/// A set of bytes.
#[derive(Clone, Copy, Debug, PartialEq, Eq)]
pub enum ByteSet {
    /// A letter of ASCII or `_`.
    Letter,
    /// A letter, a digit or `_`.
    Word,
    /// A digit.
    Digit,
    /// Space and tab.
    Space,
    /// Space, tab and carriage return, which don't count at the ends of a comment.
    Margin,
    /// All but a line feed.
    Line,
    /// All but a double quote and a line feed.
    Name,
    /// A point.
    Point,
    /// A double quote.
    Quote,
    /// A single quote.
    Apostrophe,
    /// `-`.
    Minus,
    /// `*`.
    Star,
    /// `/`.
    Slash,
}

impl ByteSet {
    ghost use Rattle.std.specs.Prelude.{◌≡◌, ◌<◌, ◌≤◌, length, IsTrue};
    ghost use Rattle.std.specs.List.{prefix_len};
    ghost use Rattle.sql_tokens.specs.Byte.{has, begins};

    /// Whether the byte is in the set.
    pub fn has(self, byte: u8) -> bool
        ensures { result ≡ has self byte }
    {
        match self {
            ByteSet::Letter => byte.is_ascii_alphabetic() || byte == b'_',
            ByteSet::Word => byte.is_ascii_alphabetic() || byte == b'_' || byte.is_ascii_digit(),
            ByteSet::Digit => byte.is_ascii_digit(),
            ByteSet::Space => byte == b' ' || byte == b'\t',
            ByteSet::Margin => byte == b' ' || byte == b'\t' || byte == b'\r',
            ByteSet::Line => byte != b'\n',
            ByteSet::Name => byte != b'"' && byte != b'\n',
            ByteSet::Point => byte == b'.',
            ByteSet::Quote => byte == b'"',
            ByteSet::Apostrophe => byte == b'\'',
            ByteSet::Minus => byte == b'-',
            ByteSet::Star => byte == b'*',
            ByteSet::Slash => byte == b'/',
        }
    }

    /// Whether the bytes begin with one of the set.
    pub fn begins(self, bytes: &[u8]) -> bool
        ensures value { result ≡ begins (has self) bytes.now }
        ensures some { IsTrue result → 0 < length bytes.now }
    {
        !bytes.is_empty() && self.has(bytes[0])
    }

    /// How many bytes at the front are in the set.
    pub fn run(self, bytes: &[u8]) -> usize
        ensures value { result ≡ prefix_len (has self) bytes.now }
        ensures within { result ≤ length bytes.now }
    {
        let mut count = 0;
        while count < bytes.len() && self.has(bytes[count]) {
            count += 1;
        }
        count
    }
}

/// What a byte can begin.
#[derive(Clone, Copy, Debug, PartialEq, Eq)]
pub enum Class {
    Blank,
    Letter,
    Digit,
    Point,
    Quote,
    Apostrophe,
    Minus,
    Slash,
    Other,
}

/// The class of a byte.
pub fn class_of(byte: u8) -> Class
    ensures { result ≡ class_of byte }
{
    if byte == b' ' || byte == b'\t' || byte == b'\r' || byte == b'\n' {
        Class::Blank
    } else if byte.is_ascii_alphabetic() || byte == b'_' {
        Class::Letter
    } else if byte.is_ascii_digit() {
        Class::Digit
    } else if byte == b'.' {
        Class::Point
    } else if byte == b'"' {
        Class::Quote
    } else if byte == b'\'' {
        Class::Apostrophe
    } else if byte == b'-' {
        Class::Minus
    } else if byte == b'/' {
        Class::Slash
    } else {
        Class::Other
    }
}

/// What follows the first bytes.
pub fn after(bytes: &[u8], count: usize) -> &[u8]
    requires { count ≤ length bytes.now }
    ensures { result.now ≡ drop count bytes.now }
{
    bytes.split_at(count).1
}
