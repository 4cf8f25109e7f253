//! What a token is.

ghost use Rattle.std.specs.Prelude.{◌≡◌};
ghost use Rattle.verilog_lex.specs.Spelling.{symbol_spelling};
ghost use Rattle.verilog_lex.specs.Words.{keyword_text, symbol_text};

use thiserror::Error;

/// A word that the grammar quotes. `ehdl` and `clk` are names: only their places make them special.
#[derive(Clone, Copy, Debug, PartialEq, Eq)]
pub enum Keyword {
    Module,
    Endmodule,
    Input,
    Output,
    Wire,
    Reg,
    Integer,
    Initial,
    For,
    Assign,
    Always,
    Posedge,
    Begin,
    End,
    If,
    Else,
}

/// A mark of one byte or of two.
#[derive(Clone, Copy, Debug, PartialEq, Eq)]
pub enum Symbol {
    LessEqual,
    GreaterEqual,
    Equal,
    NotEqual,
    ShiftLeft,
    ShiftRight,
    OpenParenthesis,
    CloseParenthesis,
    OpenBracket,
    CloseBracket,
    OpenBrace,
    CloseBrace,
    Semicolon,
    Comma,
    Colon,
    Question,
    At,
    Assign,
    Less,
    Greater,
    Plus,
    Minus,
    Star,
    Slash,
    Percent,
    And,
    Or,
    Xor,
    Not,
}

/// What a token says. Of a name it says nothing: the text has its letters.
#[derive(Clone, Copy, Debug, PartialEq, Eq)]
pub enum TokenKind {
    /// A word that is no keyword.
    Name,
    Keyword(Keyword),
    /// A number without a size, at most 65,536.
    Number(u32),
    /// A constant of a width in bits from 1 to 64, and its value below 2 to that width.
    Sized(u8, u64),
    /// A constant whose width is not from 1 to 64, or whose value does not fit it.
    OutOfRange,
    Symbol(Symbol),
}

/// A token, and the bytes of the text from `start` on, up to `end`, that spell it.
#[derive(Clone, Copy, Debug, PartialEq, Eq)]
pub struct Token {
    pub kind: TokenKind,
    pub start: usize,
    pub end: usize,
}

/// Why no tokens were given.
#[derive(Clone, Copy, Debug, PartialEq, Eq, Error)]
pub enum LexError {
    /// The first byte, from 0, at which neither a separator nor a token begins.
    #[error("no token at byte {at}")]
    At { at: usize },
    #[error("out of memory")]
    NoMemory,
}

/// The keywords.
pub const KEYWORDS: [Keyword; 16] = [
    Keyword::Module,
    Keyword::Endmodule,
    Keyword::Input,
    Keyword::Output,
    Keyword::Wire,
    Keyword::Reg,
    Keyword::Integer,
    Keyword::Initial,
    Keyword::For,
    Keyword::Assign,
    Keyword::Always,
    Keyword::Posedge,
    Keyword::Begin,
    Keyword::End,
    Keyword::If,
    Keyword::Else,
];

/// The symbols, those of two bytes first, so that the first one that fits is the longest.
pub const SYMBOLS: [Symbol; 29] = [
    Symbol::LessEqual,
    Symbol::GreaterEqual,
    Symbol::Equal,
    Symbol::NotEqual,
    Symbol::ShiftLeft,
    Symbol::ShiftRight,
    Symbol::OpenParenthesis,
    Symbol::CloseParenthesis,
    Symbol::OpenBracket,
    Symbol::CloseBracket,
    Symbol::OpenBrace,
    Symbol::CloseBrace,
    Symbol::Semicolon,
    Symbol::Comma,
    Symbol::Colon,
    Symbol::Question,
    Symbol::At,
    Symbol::Assign,
    Symbol::Less,
    Symbol::Greater,
    Symbol::Plus,
    Symbol::Minus,
    Symbol::Star,
    Symbol::Slash,
    Symbol::Percent,
    Symbol::And,
    Symbol::Or,
    Symbol::Xor,
    Symbol::Not,
];

impl Keyword {
    /// How the keyword is spelled.
    pub fn text(self) -> &'static [u8]
        ensures { result.now ≡ keyword_text self }
    {
        match self {
            Keyword::Module => b"module",
            Keyword::Endmodule => b"endmodule",
            Keyword::Input => b"input",
            Keyword::Output => b"output",
            Keyword::Wire => b"wire",
            Keyword::Reg => b"reg",
            Keyword::Integer => b"integer",
            Keyword::Initial => b"initial",
            Keyword::For => b"for",
            Keyword::Assign => b"assign",
            Keyword::Always => b"always",
            Keyword::Posedge => b"posedge",
            Keyword::Begin => b"begin",
            Keyword::End => b"end",
            Keyword::If => b"if",
            Keyword::Else => b"else",
        }
    }
}

impl Symbol {
    /// How the symbol is spelled.
    pub fn text(self) -> &'static [u8]
        ensures { result.now ≡ symbol_text self }
    {
        match self {
            Symbol::LessEqual => b"<=",
            Symbol::GreaterEqual => b">=",
            Symbol::Equal => b"==",
            Symbol::NotEqual => b"!=",
            Symbol::ShiftLeft => b"<<",
            Symbol::ShiftRight => b">>",
            Symbol::OpenParenthesis => b"(",
            Symbol::CloseParenthesis => b")",
            Symbol::OpenBracket => b"[",
            Symbol::CloseBracket => b"]",
            Symbol::OpenBrace => b"{",
            Symbol::CloseBrace => b"}",
            Symbol::Semicolon => b";",
            Symbol::Comma => b",",
            Symbol::Colon => b":",
            Symbol::Question => b"?",
            Symbol::At => b"@",
            Symbol::Assign => b"=",
            Symbol::Less => b"<",
            Symbol::Greater => b">",
            Symbol::Plus => b"+",
            Symbol::Minus => b"-",
            Symbol::Star => b"*",
            Symbol::Slash => b"/",
            Symbol::Percent => b"%",
            Symbol::And => b"&",
            Symbol::Or => b"|",
            Symbol::Xor => b"^",
            Symbol::Not => b"~",
        }
    }

    /// The symbol, with a space after it where it may be a prefix of another token or of a comment.
    pub(crate) fn spelling(self) -> &'static [u8]
        ensures { result.now ≡ symbol_spelling self }
    {
        match self {
            Symbol::Assign => b"= ",
            Symbol::Less => b"< ",
            Symbol::Greater => b"> ",
            Symbol::Slash => b"/ ",
            _ => self.text(),
        }
    }
}
