ghost use Rattle.std.specs.Prelude.{◌≡◌};
ghost use Rattle.ver_text.specs.Kinds.{same_kind, same_rule};
ghost use Rattle.ver_text.specs.Grammar as spec;

use crate::kind::{Kind, Rule};

/// How much of a text's syntax has been read: the first token of the construct, and how many followed it.
#[derive(Clone, Copy, Debug, PartialEq, Eq)]
pub struct State {
    /// The first token of the construct.
    pub first: Kind,
    /// How many of the tokens behind it were read.
    pub done: usize,
}

// Where a construct may stand that begins with this token.
fn rule_begun(kind: Kind) -> Rule
    ensures { result ≡ spec.rule_begun kind }
{
    match kind {
        Kind::Module => Rule::Text,
        Kind::Input | Kind::Output => Rule::Port,
        Kind::Comma | Kind::CloseParen => Rule::MorePorts,
        Kind::Reg | Kind::Wire | Kind::Assign | Kind::Always | Kind::Endmodule => Rule::Item,
        Kind::Literal | Kind::Tilde | Kind::OpenBrace | Kind::Name => Rule::Expression,
        Kind::Semicolon
        | Kind::And
        | Kind::Or
        | Kind::Xor
        | Kind::Plus
        | Kind::Minus
        | Kind::Equal
        | Kind::Less
        | Kind::Question
        | Kind::OpenBracket => Rule::AfterName,
        _ => Rule::Inner,
    }
}

/// What may come behind a construct with this first token.
pub fn next_rule(kind: Kind) -> Rule
    ensures { result ≡ spec.next_rule kind }
{
    match kind {
        Kind::Module | Kind::Comma => Rule::Port,
        Kind::Input | Kind::Output => Rule::MorePorts,
        Kind::Assign => Rule::Expression,
        Kind::Endmodule => Rule::Ended,
        Kind::Name => Rule::AfterName,
        Kind::Gap => Rule::Text,
        _ => Rule::Item,
    }
}

// The tokens that follow the first of an expression.
fn behind_value(kind: Kind) -> &'static [Kind]
    ensures { result.now ≡ spec.behind_value kind }
{
    match kind {
        Kind::Literal => &[Kind::Semicolon],
        Kind::Tilde
        | Kind::And
        | Kind::Or
        | Kind::Xor
        | Kind::Plus
        | Kind::Minus
        | Kind::Equal
        | Kind::Less => &[Kind::Name, Kind::Semicolon],
        Kind::OpenBrace => &[
            Kind::Name,
            Kind::Comma,
            Kind::Name,
            Kind::CloseBrace,
            Kind::Semicolon,
        ],
        Kind::Question => &[Kind::Name, Kind::Colon, Kind::Name, Kind::Semicolon],
        Kind::OpenBracket => &[
            Kind::Number,
            Kind::Colon,
            Kind::Number,
            Kind::CloseBracket,
            Kind::Semicolon,
        ],
        _ => &[],
    }
}

/// The tokens that follow the first of a construct.
pub fn behind(kind: Kind) -> &'static [Kind]
    ensures { result.now ≡ spec.behind kind }
{
    match kind {
        Kind::Module => &[Kind::Name, Kind::OpenParen],
        Kind::Input | Kind::Output => &[
            Kind::OpenBracket,
            Kind::Number,
            Kind::Colon,
            Kind::Number,
            Kind::CloseBracket,
            Kind::Name,
        ],
        Kind::CloseParen => &[Kind::Semicolon],
        Kind::Reg | Kind::Wire => &[
            Kind::OpenBracket,
            Kind::Number,
            Kind::Colon,
            Kind::Number,
            Kind::CloseBracket,
            Kind::Name,
            Kind::Semicolon,
        ],
        Kind::Assign => &[Kind::Name, Kind::Becomes],
        Kind::Always => &[
            Kind::At,
            Kind::OpenParen,
            Kind::Posedge,
            Kind::Name,
            Kind::CloseParen,
            Kind::Name,
            Kind::LessEqual,
            Kind::Name,
            Kind::Semicolon,
        ],
        _ => behind_value(kind),
    }
}

fn is_same_kind(a: Kind, b: Kind) -> bool
    ensures { result ≡ same_kind a b }
{
    a.number() == b.number()
}

fn is_same_rule(a: Rule, b: Rule) -> bool
    ensures { result ≡ same_rule a b }
{
    a.number() == b.number()
}

impl State {
    /// Nothing was read yet.
    pub fn start() -> State
        ensures { result ≡ spec.start }
    {
        State {
            first: Kind::Gap,
            done: 0,
        }
    }

    /// After one more token; `None` exactly where it can't come there.
    #[tactic(auto, unfolding(crate::specs::Grammar::next_state))]
    pub fn next_state(self, kind: Kind) -> Option<State>
        ensures { result ≡ spec.next_state self kind }
    {
        match behind(self.first).get(self.done) {
            Some(wanted) => is_same_kind(*wanted, kind).then_some(State {
                first: self.first,
                done: self.done + 1,
            }),
            None => is_same_rule(next_rule(self.first), rule_begun(kind)).then_some(State {
                first: kind,
                done: 0,
            }),
        }
    }

    /// Whether the text may end there.
    pub fn is_whole(self) -> bool
        ensures { result ≡ spec.is_whole self }
    {
        is_same_kind(self.first, Kind::Endmodule)
    }
}
