//! A place in the terminals of a text.
ghost use Rattle.sql_reader.specs.Kinds.{has};
ghost use Rattle.sql_reader.specs.inner.Ahead.{from_next, terminals_behind};
ghost use Rattle.std.specs.Prelude.{◌≡◌, ◌<◌, ◌^◌, length};

use crate::scan::next_terminal;
use crate::{Mark, Terminal, TerminalKind};
use sql_tokens::TokenReader;

/// Why reading stops: there is no memory, or nothing goes on with the next terminal.
#[derive(Clone, Copy)]
pub enum Unread {
    Memory,
    Here,
}

/// A place in a text before a terminal of it. The terminals behind that one are made when they are come to, so no list
/// of them takes memory.
#[derive(Clone, Copy)]
pub struct Cursor<'a> {
    /// The tokens behind the next terminal.
    pub tokens: TokenReader<'a>,
    /// The last weight comment before these.
    pub mark: Mark,
    /// The next terminal, None where no token is left before the text's end or its first fault.
    pub next: Option<Terminal>,
    /// Places fit 32 bits.
    pub ghost short: { length tokens.text.now < 2 ^ 32 },
    /// A count of the terminals that are left fits 32 bits.
    pub ghost few: { length (from_next next (terminals_behind tokens.text.now tokens.at mark)) < 2 ^ 32 },
}

/// Reads by the grammar, where so many more levels may nest.
#[derive(Clone, Copy)]
pub struct GrammarReader {
    pub levels: u8,
}

/// Whether a kind is one of these.
pub fn has(kinds: &[TerminalKind], kind: TerminalKind) -> bool
    ensures { result ≡ has kinds.now kind }
{
    let code = kind.code();
    kinds.iter().any(|one| one.code() == code)
}

impl<'a> Cursor<'a> {
    ghost use Rattle.sql_reader.specs.inner.Ahead.{terminals_behind, terminals_in};
    ghost use Rattle.sql_reader.specs.inner.Reads.{Gives, same};
    ghost use Rattle.sql_reader.specs.inner.Remaining.{remaining};
    ghost use Rattle.sql_reader.specs.inner.Room as room;
    ghost use Rattle.sql_reader.specs.Rule.{begins, terminal_of};
    ghost use Rattle.std.specs.Prelude.{◌≡◌, ◌<◌, ◌^◌, length};

    /// The place before the next terminal of these tokens, which stand behind the weight comment that the mark names.
    #[tactic(auto, unfolding(crate::specs::inner::Remaining::remaining))]
    pub fn new(tokens: TokenReader<'a>, mark: Mark) -> Cursor<'a>
        requires short { length tokens.text.now < 2 ^ 32 }
        requires few { length (terminals_behind tokens.text.now tokens.at mark) < 2 ^ 32 }
        ensures { remaining result ≡ terminals_behind tokens.entry.text.now tokens.entry.at mark }
    {
        let mut behind = tokens;
        let mut last = mark;
        let next = next_terminal(&mut behind, &mut last);
        Cursor {
            tokens: behind,
            mark: last,
            next,
        }
    }

    /// The place before the first terminal of a text.
    pub fn at_front(text: &'a [u8]) -> Cursor<'a>
        requires short { length text.now < 2 ^ 32 }
        requires few { length (terminals_in text.now) < 2 ^ 32 }
        ensures { remaining result ≡ terminals_in text.now }
    {
        let no_mark = Mark {
            place: 0,
            weight: 1,
        };
        Cursor::new(TokenReader::new(text), no_mark)
    }

    /// Whether the next terminal is of one of these kinds.
    #[tactic(auto, unfolding(crate::specs::inner::Remaining::remaining))]
    pub fn begins(&self, kinds: &[TerminalKind]) -> bool
        ensures { result ≡ begins kinds.now (remaining self.now) }
    {
        match self.next {
            Some(terminal) => has(kinds, terminal.kind),
            None => false,
        }
    }

    /// Takes one terminal of these kinds.
    #[tactic(auto, unfolding(crate::specs::inner::Remaining::remaining))]
    pub fn take(&mut self, kinds: &[TerminalKind]) -> Result<Terminal, Unread>
        ensures reads { Gives same result (terminal_of kinds.now (remaining self.old)) self.new }
        ensures left { room.TakesSome result self.old self.new }
    {
        let Some(terminal) = self.next else {
            return Err(Unread::Here);
        };
        if !has(kinds, terminal.kind) {
            return Err(Unread::Here);
        }
        *self = Cursor::new(self.tokens, self.mark);
        Ok(terminal)
    }
}
