ghost use Rattle.std.specs.Prelude.{◌≡◌, Some};
ghost use Rattle.ver_text.specs.Parts as spec;

use crate::grammar::{State, behind, next_rule};
use crate::kind::{Kind, Rule};
use crate::token::Token;

/// A part of a text: the module's name, a port, an item or the end.
#[derive(Clone, Copy, Debug, PartialEq, Eq)]
pub struct Part {
    /// Its first token.
    pub head: Token,
    /// The first token of its last construct.
    pub form: Kind,
    /// The last name, number or literal but three.
    pub fourth: Token,
    /// The last but two.
    pub third: Token,
    /// The last but one.
    pub second: Token,
    /// The last.
    pub last: Token,
}

/// How far a text was read.
#[derive(Clone, Copy, Debug, PartialEq, Eq)]
pub struct Cursor {
    /// What was read of its syntax.
    pub state: State,
    /// What was read of the part.
    pub part: Part,
}

fn is_done(state: State) -> bool
    ensures { result ≡ spec.is_done state }
{
    behind(state.first).len() <= state.done
}

// Whether the next token is the first of a part.
fn opens(state: State) -> bool
    ensures { result ≡ spec.opens state }
{
    (matches!(state.first, Kind::Module) && state.done == 0)
        || (is_done(state) && matches!(next_rule(state.first), Rule::Port | Rule::Item))
}

// Whether a part may end with a construct that begins with this token.
fn closes(kind: Kind) -> bool
    ensures { result ≡ spec.closes kind }
{
    !matches!(
        kind,
        Kind::Comma | Kind::CloseParen | Kind::Assign | Kind::Name | Kind::Gap
    )
}

impl Part {
    // Takes a token as the first, if it is that.
    fn begin(&mut self, is_first: bool, token: Token)
        ensures { self.new ≡ spec.with_head is_first self.old token }
    {
        if is_first {
            self.head = token;
        }
    }

    // Takes a token as the last word, if it is one.
    fn add_word(&mut self, token: Token)
        ensures { self.new ≡ spec.with_word self.old token }
    {
        if token.kind.is_word() {
            self.fourth = self.third;
            self.third = self.second;
            self.second = self.last;
            self.last = token;
        }
    }
}

impl Cursor {
    /// Before the first token.
    pub fn at_start() -> Cursor
        ensures { result ≡ spec.at_start }
    {
        let none = Token {
            kind: Kind::Gap,
            start: 0,
            length: 0,
        };
        Cursor {
            state: State::start(),
            part: Part {
                head: none,
                form: Kind::Gap,
                fourth: none,
                third: none,
                second: none,
                last: none,
            },
        }
    }

    /// Goes on behind one more token, to this state.
    pub fn pass(&mut self, token: Token, state: State)
        ensures { self.new ≡ spec.moved_to self.old token (Some state) }
    {
        self.part.begin(opens(self.state), token);
        self.part.add_word(token);
        self.part.form = state.first;
        self.state = state;
    }

    /// Whether the token just read was the last of a part, or the one behind the module's name.
    pub fn ends(&self) -> bool
        ensures { result ≡ spec.ends self.now.state }
    {
        is_done(self.state) && closes(self.state.first)
    }
}
