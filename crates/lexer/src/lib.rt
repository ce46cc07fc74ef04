// The reader of lexemes: the next one of a text, or refusal 2. It knows no limits.
#![tactic(auto, using(crate::proofs::Laws::laws), unfolding(lexeme::specs::Lexemes::found, lexeme::specs::Lexemes::colon, lexeme::specs::Lexemes::symbols, lexeme::specs::Lexemes::symbol, lexeme::specs::Lexemes::next, lexeme::specs::inner::Coded::kind_of, lexeme::specs::inner::Coded::coded))]

ghost use Rattle.std.specs.Prelude.{◌≡◌, true, false, ◌+◌, ◌-◌, ◌<◌, min, length, drop};
ghost use Rattle.base.specs.declared.Refusal.TheVariants.{NoLexeme};
ghost use Rattle.base.specs.Bytes.{separator, small, letter, digit, letter_or_digit, run, begins, value};
ghost use Rattle.lexeme.specs.Lexemes.{word, string_at, symbols, symbol, colon, here, next};
ghost use Rattle.lexeme.specs.inner.Coded.{coded};

use base::{Refusal, Refused, such};
use lexeme::{Fixed, Kind, Lexeme};

// What is no lexeme, refused at its place.
fn no_lexeme(place: usize) -> Refused
    ensures { result ≡ record { why = NoLexeme; place = place } }
{
    Refused {
        why: Refusal::NoLexeme,
        place,
    }
}

// The value of a digit word, or the largest number where it is beyond that.
// A loop and no `fold`: past the largest number the other digits are not read, and each digit takes fewer instructions.
#[tactic(auto, using(base::proofs::Words::value_on, base::proofs::Words::value_out, base::proofs::Words::value_grows))]
fn value_of(word: &[u8]) -> u32
    ensures { result ≡ min (value 0 word.now) 4294967295 }
{
    let mut value: u64 = 0;
    for digit in word {
        value = value * 10 + digit.saturating_sub(b'0') as u64;
        if 4294967295 < value {
            return u32::MAX;
        }
    }
    value as u32
}

// A word that begins with a small letter at p: a name, of all letters and digits that follow.
fn name_at(text: &[u8], p: usize) -> Result<Lexeme, Refused>
    requires { begins small (drop p text.now) ≡ true }
    ensures { result ≡ coded (word p (run letter_or_digit (drop p text.now))) }
{
    Ok(Lexeme {
        kind: Kind::Name,
        place: p,
        end: base::such_run_end::<such::LetterOrDigit>(text, p),
    })
}

// A word that begins with a capital at p: all letters; one with a digit in it is mixed, and refused.
fn capital_word_at(text: &[u8], p: usize) -> Result<Lexeme, Refused>
    requires { (begins letter (drop p text.now) ≡ true) × (begins small (drop p text.now) ≡ false) }
    ensures { result ≡ coded (word p (run letter_or_digit (drop p text.now))) }
{
    let e = base::such_run_end::<such::Letter>(text, p);
    if !base::is_such_at::<such::Digit>(text, e) {
        return Ok(Lexeme {
            kind: lexeme::capital_word(&text[p..e]),
            place: p,
            end: e,
        });
    }
    Err(no_lexeme(p))
}

// A word that begins with a digit at p: all digits; one with a letter in it is mixed, and refused.
fn digits_at(text: &[u8], p: usize) -> Result<Lexeme, Refused>
    requires { begins digit (drop p text.now) ≡ true }
    ensures { result ≡ coded (word p (run letter_or_digit (drop p text.now))) }
{
    let e = base::such_run_end::<such::Digit>(text, p);
    if !base::is_such_at::<such::Letter>(text, e) {
        return Ok(Lexeme {
            kind: Kind::Literal(value_of(&text[p..e])),
            place: p,
            end: e,
        });
    }
    Err(no_lexeme(p))
}

// A string whose opening quote is at p.
fn string_at(text: &[u8], p: usize) -> Result<Lexeme, Refused>
    requires { p < length text.now }
    ensures { result ≡ coded (string_at p (drop (p + 1) text.now)) }
{
    let e = base::such_run_end::<such::NoQuote>(text, p + 1);
    if text.len() <= e {
        return Err(no_lexeme(p));
    }
    Ok(Lexeme {
        kind: Kind::Str,
        place: p,
        end: e + 1,
    })
}

// A colon at p, with what follows it.
fn colon_at(text: &[u8], p: usize) -> Result<Lexeme, Refused>
    requires { p < length text.now }
    ensures { result ≡ coded (colon p (drop (p + 1) text.now)) }
{
    match text.get(p + 1) {
        Some(b'=') => Ok(Lexeme {
            kind: Kind::Fixed(Fixed::Becomes),
            place: p,
            end: p + 2,
        }),
        _ => Err(no_lexeme(p)),
    }
}

// A byte at p that is one of the fifteen characters, or no lexeme; q is the place after it.
fn symbol_at(b: u8, p: usize, q: usize) -> Result<Lexeme, Refused>
    requires { q ≡ p + 1 }
    ensures { result ≡ coded (symbol symbols p b) }
{
    let fixed = match b {
        b'=' => Fixed::Equals,
        b',' => Fixed::Comma,
        b'.' => Fixed::Dot,
        b'>' => Fixed::Greater,
        b'<' => Fixed::Less,
        b'+' => Fixed::Plus,
        b'-' => Fixed::Minus,
        b'*' => Fixed::Star,
        b'/' => Fixed::Slash,
        b'(' => Fixed::OpenRound,
        b')' => Fixed::CloseRound,
        b'[' => Fixed::OpenSquare,
        b']' => Fixed::CloseSquare,
        b'{' => Fixed::OpenBrace,
        b'}' => Fixed::CloseBrace,
        _ => return Err(no_lexeme(p)),
    };
    Ok(Lexeme {
        kind: Kind::Fixed(fixed),
        place: p,
        end: q,
    })
}

// What begins at a place, where no separator stands.
fn here(text: &[u8], p: usize) -> Result<Lexeme, Refused>
    ensures { result ≡ coded (here p (drop p text.now)) }
{
    let Some(&b) = text.get(p) else {
        return Ok(Lexeme {
            kind: Kind::Fixed(Fixed::End),
            place: p,
            end: p,
        });
    };
    if base::is_small(b) {
        return name_at(text, p);
    }
    if base::is_letter(b) {
        return capital_word_at(text, p);
    }
    if base::is_digit(b) {
        return digits_at(text, p);
    }
    match b {
        b'"' => string_at(text, p),
        b':' => colon_at(text, p),
        _ => symbol_at(b, p, p + 1),
    }
}

// The first lexeme at or after a place.
pub fn next(text: &[u8], at: usize) -> Result<Lexeme, Refused>
    ensures { result ≡ coded (next text.now at) }
{
    here(text, base::such_run_end::<such::Separator>(text, at))
}
