// Lexemes: their kinds, and the keywords.
#![tactic(auto)]

ghost use Rattle.std.specs.Prelude.{◌≡◌, ℕ};
ghost use Rattle.lexeme.specs.Lexemes.{keywords, capital_word};
ghost use Rattle.lexeme.specs.inner.Coded.{kind_of, number, variant_in};

mod keyword;

// The lexemes that are always written the same: the end of the text, the keywords in alphabetical order, and the symbols, each by its byte, `:=` by its colon's.
#[derive(Clone, Copy, PartialEq, Eq, Debug)]
pub enum Fixed {
    End = 0,
    Call = 1,
    Class = 2,
    Do = 3,
    Error = 4,
    Fields = 5,
    If = 6,
    Init = 7,
    Int = 8,
    Method = 9,
    Not = 10,
    Obj = 11,
    Printi = 12,
    Printlns = 13,
    Prints = 14,
    Procedure = 15,
    Read = 16,
    Returns = 17,
    Subclassof = 18,
    Then = 19,
    Using = 20,
    While = 21,
    OpenRound = 40,
    CloseRound = 41,
    Star = 42,
    Plus = 43,
    Comma = 44,
    Minus = 45,
    Dot = 46,
    Slash = 47,
    Becomes = 58,
    Less = 60,
    Equals = 61,
    Greater = 62,
    OpenSquare = 91,
    CloseSquare = 93,
    OpenBrace = 123,
    CloseBrace = 125,
}

// What a lexeme is. A literal has its value, or the largest number where that is beyond it.
#[derive(Clone, Copy, PartialEq, Eq, Debug)]
pub enum Kind {
    Literal(u32),
    Name,
    Class,
    Str,
    Fixed(Fixed),
}

// A lexeme, the place of its first byte, and the place after it.
#[derive(Clone, Copy, PartialEq, Eq, Debug)]
pub struct Lexeme {
    pub kind: Kind,
    pub place: usize,
    pub end: usize,
}

// The number of a fixed lexeme.
pub fn number(fixed: Fixed) -> u8
    ensures { result ≡ number fixed }
{
    fixed as u8
}

// The fixed lexeme that a kind is, if it is one.
#[tactic(auto, unfolding(crate::specs::inner::Coded::variant_in))]
pub fn fixed_of(kind: Kind) -> Option<Fixed>
    ensures { result ≡ variant_in kind }
{
    match kind {
        Kind::Fixed(f) => Some(f),
        _ => None,
    }
}

// A word of letters that starts with a capital: a keyword, or a class name. Of the keywords it is compared with one at most.
pub fn capital_word(word: &[u8]) -> Kind
    ensures { (p : ℕ) → result ≡ kind_of (capital_word keywords p word.now) }
{
    match keyword::candidate(word) {
        Some(f) if keyword::is_keyword(word, f) => Kind::Fixed(f),
        _ => Kind::Class,
    }
}
