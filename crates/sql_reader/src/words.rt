//! Tells the kinds of words, names, symbols and numbers.
ghost use Rattle.sql_reader.specs.Words as words;
ghost use Rattle.std.specs.Prelude.{◌≡◌, ◌<◌, ◌^◌, ◌<ℤ◌, Some, None, if◌then◌else◌, nat_le, neg_ℤ, pos};
ghost use Rattle.std.specs.Option.{ForSome};
ghost use Rattle.std.specs.Char.{is_ascii_digit};
ghost use Rattle.std.specs.List.{list_all};
ghost use Rattle.std.specs.Str.{str_eq_ignore_ascii_case};
ghost use Rattle.std.specs.Str.Parse.{AllDigits, digits_value};

use crate::TerminalKind;
use adv_base::day_of;

/// A word that the grammar knows, in capital letters, and its kind.
#[derive(Clone, Copy)]
pub struct Word(pub &'static [u8], pub TerminalKind);

/// The words that the grammar knows: the reserved ones, the aggregates and DATE.
const WORDS: [Word; 52] = [
    Word(b"ALL", TerminalKind::All),
    Word(b"AND", TerminalKind::And),
    Word(b"AS", TerminalKind::As),
    Word(b"ASC", TerminalKind::Asc),
    Word(b"BETWEEN", TerminalKind::Between),
    Word(b"BY", TerminalKind::By),
    Word(b"CASE", TerminalKind::LeftOut),
    Word(b"CROSS", TerminalKind::LeftOut),
    Word(b"DELETE", TerminalKind::Delete),
    Word(b"DESC", TerminalKind::Desc),
    Word(b"DISTINCT", TerminalKind::Distinct),
    Word(b"EXCEPT", TerminalKind::LeftOut),
    Word(b"EXISTS", TerminalKind::LeftOut),
    Word(b"FROM", TerminalKind::From),
    Word(b"FULL", TerminalKind::LeftOut),
    Word(b"GROUP", TerminalKind::Group),
    Word(b"HAVING", TerminalKind::Having),
    Word(b"IN", TerminalKind::In),
    Word(b"INNER", TerminalKind::Inner),
    Word(b"INSERT", TerminalKind::Insert),
    Word(b"INTERSECT", TerminalKind::LeftOut),
    Word(b"INTO", TerminalKind::Into),
    Word(b"IS", TerminalKind::Is),
    Word(b"JOIN", TerminalKind::Join),
    Word(b"LEFT", TerminalKind::LeftOut),
    Word(b"LIKE", TerminalKind::Like),
    Word(b"LIMIT", TerminalKind::Limit),
    Word(b"NATURAL", TerminalKind::LeftOut),
    Word(b"NOT", TerminalKind::Not),
    Word(b"NULL", TerminalKind::Null),
    Word(b"OFFSET", TerminalKind::Offset),
    Word(b"ON", TerminalKind::On),
    Word(b"OR", TerminalKind::LeftOut),
    Word(b"ORDER", TerminalKind::Order),
    Word(b"OUTER", TerminalKind::LeftOut),
    Word(b"OVER", TerminalKind::LeftOut),
    Word(b"RETURNING", TerminalKind::LeftOut),
    Word(b"RIGHT", TerminalKind::LeftOut),
    Word(b"SELECT", TerminalKind::Select),
    Word(b"SET", TerminalKind::Set),
    Word(b"UNION", TerminalKind::LeftOut),
    Word(b"UPDATE", TerminalKind::Update),
    Word(b"USING", TerminalKind::LeftOut),
    Word(b"VALUES", TerminalKind::Values),
    Word(b"WHERE", TerminalKind::Where),
    Word(b"WITH", TerminalKind::LeftOut),
    Word(b"COUNT", TerminalKind::Aggregate),
    Word(b"SUM", TerminalKind::Aggregate),
    Word(b"MIN", TerminalKind::Aggregate),
    Word(b"MAX", TerminalKind::Aggregate),
    Word(b"AVG", TerminalKind::Aggregate),
    Word(b"DATE", TerminalKind::Date),
];

/// Whether a word is spelled so, in any case of letters.
fn is_spelled(word: &[u8], spelled: &[u8]) -> bool
    ensures { result ≡ str_eq_ignore_ascii_case word.now spelled.now }
{
    word.eq_ignore_ascii_case(spelled)
}

/// The kind of the first of these words that this is, in any case of letters.
fn look_up(table: &[Word], word: &[u8]) -> Option<TerminalKind>
    ensures { result ≡ words.kind_in (words.entries table.now) word.now }
{
    let Some((entry, rest)) = table.split_first() else {
        return None;
    };
    if is_spelled(word, entry.0) {
        return Some(entry.1);
    }
    look_up(rest, word)
}

/// The kind of a word: that of a word that the grammar knows, or a name.
#[tactic(auto, unfolding(crate::specs::Words::word_kind))]
pub fn word_kind(word: &[u8]) -> TerminalKind
    ensures { result ≡ words.word_kind word.now }
{
    look_up(&WORDS, word).unwrap_or(TerminalKind::Name)
}

/// The bytes between the quotes.
fn inside(bytes: &[u8]) -> &[u8]
    ensures { result.now ≡ words.inside bytes.now }
{
    if bytes.len() < 2 {
        return &[];
    }
    &bytes[1..bytes.len() - 1]
}

/// The kind of a quoted name: an aggregate, or another name.
#[tactic(auto, unfolding(crate::specs::Words::quoted_kind))]
pub fn quoted_kind(bytes: &[u8]) -> TerminalKind
    ensures { result ≡ words.quoted_kind bytes.now }
{
    match look_up(&WORDS, inside(bytes)) {
        Some(TerminalKind::Aggregate) => TerminalKind::Aggregate,
        _ => TerminalKind::Name,
    }
}

/// The kind of a symbol, by its first byte and, for `<`, its second.
#[tactic(auto, unfolding(crate::specs::Words::symbol_kind))]
pub fn symbol_kind(first: u8, second: u8) -> TerminalKind
    ensures { result ≡ words.symbol_kind first second }
{
    match first {
        b'(' => TerminalKind::Open,
        b')' => TerminalKind::Close,
        b',' => TerminalKind::Comma,
        b'.' => TerminalKind::Point,
        b';' => TerminalKind::Semicolon,
        b'*' => TerminalKind::Star,
        b'+' => TerminalKind::Plus,
        b'-' => TerminalKind::Minus,
        b'=' => TerminalKind::Equal,
        b'<' => {
            if second == b'>' {
                TerminalKind::NotEqual
            } else {
                TerminalKind::Below
            }
        }
        b'!' => TerminalKind::NotEqual,
        b'>' => TerminalKind::Above,
        b'?' => TerminalKind::Question,
        b'$' => TerminalKind::Question,
        _ => TerminalKind::Operator,
    }
}

/// The number of a whole number of at most 18 digits.
#[tactic(auto, unfolding(crate::specs::Words::whole_number))]
pub fn whole_number(bytes: &[u8]) -> Option<i64>
    ensures value { result ≡ words.whole_number bytes.now }
    ensures least { ForSome result (λ n. neg_ℤ (pos (10 ^ 18)) <ℤ n) }
    ensures most { ForSome result (λ n. n <ℤ pos (10 ^ 18)) }
{
    if bytes.len() > 18 || !all_digits(bytes) {
        return None;
    }
    match number_up_to(bytes, 999_999_999_999_999_999) {
        Some(number) => Some(number as i64),
        None => None,
    }
}

/// Whether each byte is a digit.
fn all_digits(bytes: &[u8]) -> bool
    ensures { result ≡ list_all is_ascii_digit bytes.now }
{
    bytes.iter().all(|byte| byte.is_ascii_digit())
}

/// The number that digits write, where it is at most so large.
fn number_up_to(digits: &[u8], most: u64) -> Option<u64>
    requires digits { AllDigits 10 digits.now }
    requires most { most < 10 ^ 18 }
    ensures { result ≡ (if nat_le (digits_value 10 digits.now) most then Some (digits_value 10 digits.now) else None) }
{
    let mut number = 0;
    'turns: for byte in digits {
        let digit = *byte - b'0';
        number = 10 * number + u64::from(digit);
        if number > most {
            return None;
        }
    }
    Some(number)
}

/// The day in a text.
#[tactic(auto, unfolding(crate::specs::Words::text_day))]
pub fn text_day(bytes: &[u8]) -> Option<i64>
    ensures value { result ≡ words.text_day bytes.now }
    ensures least { ForSome result (λ n. neg_ℤ (pos (10 ^ 18)) <ℤ n) }
    ensures most { ForSome result (λ n. n <ℤ pos (10 ^ 18)) }
{
    if_18_digits(day_of(inside(bytes))?)
}

/// The number, where 18 digits can write it: every day of the calendar.
fn if_18_digits(number: i64) -> Option<i64>
    ensures value { result ≡ words.if_18_digits number }
    ensures least { ForSome result (λ n. neg_ℤ (pos (10 ^ 18)) <ℤ n) }
    ensures most { ForSome result (λ n. n <ℤ pos (10 ^ 18)) }
{
    if -1_000_000_000_000_000_000 < number && number < 1_000_000_000_000_000_000 {
        return Some(number);
    }
    None
}

/// The weight of a weight comment: the number that its last digits write, where it is 1 to 10^6.
#[tactic(auto, using(crate::proofs::Digits::no_weight, crate::proofs::Digits::zero_weight, crate::proofs::Digits::a_weight), unfolding(crate::specs::Words::comment_weight))]
pub fn comment_weight(bytes: &[u8]) -> Option<u32>
    ensures { result ≡ words.comment_weight bytes.now }
{
    match number_up_to(last_digits(bytes), 1_000_000) {
        Some(0) => None,
        Some(number) => Some(number as u32),
        None => None,
    }
}

/// The digits behind the last byte that is none.
fn last_digits(bytes: &[u8]) -> &[u8]
    ensures value { result.now ≡ words.last_digits bytes.now }
    ensures digits { AllDigits 10 result.now }
{
    let mut start = bytes.len();
    'turns: while start > 0 && bytes[start - 1].is_ascii_digit() {
        start -= 1;
    }
    &bytes[start..]
}
