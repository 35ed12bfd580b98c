ghost use Rattle.std.specs.Prelude.{◌≡◌};
ghost use Rattle.ver_text.specs.Kinds.{is_gap, is_word, number_of_kind, number_of_rule};

/// What a token is, or that there is none.
#[derive(Clone, Copy, Debug, PartialEq, Eq)]
pub enum Kind {
    /// A word that isn't a keyword.
    Name,
    /// A decimal number.
    Number,
    /// A number with its width.
    Literal,
    /// `module`
    Module,
    /// `input`
    Input,
    /// `output`
    Output,
    /// `reg`
    Reg,
    /// `wire`
    Wire,
    /// `assign`
    Assign,
    /// `always`
    Always,
    /// `posedge`
    Posedge,
    /// `endmodule`
    Endmodule,
    /// `(`
    OpenParen,
    /// `)`
    CloseParen,
    /// `[`
    OpenBracket,
    /// `]`
    CloseBracket,
    /// `{`
    OpenBrace,
    /// `}`
    CloseBrace,
    /// `,`
    Comma,
    /// `;`
    Semicolon,
    /// `:`
    Colon,
    /// `=`
    Becomes,
    /// `?`
    Question,
    /// `@`
    At,
    /// `~`
    Tilde,
    /// `&`
    And,
    /// `|`
    Or,
    /// `^`
    Xor,
    /// `+`
    Plus,
    /// `-`
    Minus,
    /// `==`
    Equal,
    /// `<`
    Less,
    /// `<=`
    LessEqual,
    /// No token, but what may stand between tokens.
    Gap,
    /// No token, and nothing that may stand between tokens.
    Unknown,
}

/// Which constructs may come next.
#[derive(Clone, Copy, Debug, PartialEq, Eq)]
pub enum Rule {
    /// The whole text.
    Text,
    /// A port.
    Port,
    /// Another port, or the end of the ports.
    MorePorts,
    /// An item, or the end of the module.
    Item,
    /// The expression of an assignment.
    Expression,
    /// What follows the first name of an expression.
    AfterName,
    /// Nothing more.
    Ended,
    /// No construct begins so.
    Inner,
}

impl Kind {
    /// A number for each kind.
    pub fn number(self) -> u8
        ensures { result ≡ number_of_kind self }
    {
        match self {
            Kind::Name => 0,
            Kind::Number => 1,
            Kind::Literal => 2,
            Kind::Module => 3,
            Kind::Input => 4,
            Kind::Output => 5,
            Kind::Reg => 6,
            Kind::Wire => 7,
            Kind::Assign => 8,
            Kind::Always => 9,
            Kind::Posedge => 10,
            Kind::Endmodule => 11,
            Kind::OpenParen => 12,
            Kind::CloseParen => 13,
            Kind::OpenBracket => 14,
            Kind::CloseBracket => 15,
            Kind::OpenBrace => 16,
            Kind::CloseBrace => 17,
            Kind::Comma => 18,
            Kind::Semicolon => 19,
            Kind::Colon => 20,
            Kind::Becomes => 21,
            Kind::Question => 22,
            Kind::At => 23,
            Kind::Tilde => 24,
            Kind::And => 25,
            Kind::Or => 26,
            Kind::Xor => 27,
            Kind::Plus => 28,
            Kind::Minus => 29,
            Kind::Equal => 30,
            Kind::Less => 31,
            Kind::LessEqual => 32,
            Kind::Gap => 33,
            Kind::Unknown => 34,
        }
    }

    /// Whether it isn't a token, but may stand between tokens.
    pub fn is_gap(self) -> bool
        ensures { result ≡ is_gap self }
    {
        matches!(self, Kind::Gap)
    }

    /// Whether its tokens are told apart by their bytes: names, numbers and literals.
    pub fn is_word(self) -> bool
        ensures { result ≡ is_word self }
    {
        matches!(self, Kind::Name | Kind::Number | Kind::Literal)
    }
}

impl Rule {
    /// A number for each rule.
    pub fn number(self) -> u8
        ensures { result ≡ number_of_rule self }
    {
        match self {
            Rule::Text => 0,
            Rule::Port => 1,
            Rule::MorePorts => 2,
            Rule::Item => 3,
            Rule::Expression => 4,
            Rule::AfterName => 5,
            Rule::Ended => 6,
            Rule::Inner => 7,
        }
    }
}
