// Spotting a keyword: length and letters decide which one a word can be, and one comparison tells whether it is.
#![tactic(auto, unfolding(crate::specs::inner::Spotting::alike, crate::specs::inner::Spotting::candidate, crate::specs::inner::Spotting::is_keyword, crate::specs::inner::Coded::code_of, crate::specs::Lexemes::keywords, base::specs::Bytes::bytes, base::specs::Bytes::bytes_from))]

ghost use Rattle.std.specs.Prelude.{◌≡◌, cond, eqb, Some, None};
ghost use Rattle.lexeme.specs.Lexemes.{keywords};
ghost use Rattle.lexeme.specs.inner.Coded.{number};
ghost use Rattle.lexeme.specs.inner.Spotting.{alike, six_letters, candidate, is_keyword};

use super::Fixed;
use base::is_same;

// The keyword of two letters that begins with this one; None where there is none, here and below. A match for each length and no table of the 21:
// a search in it would meet more than the one keyword that a word is compared with.
fn of_two(first: u8) -> Option<Fixed>
    ensures { result ≡ alike keywords 2 first }
{
    match first {
        b'D' => Some(Fixed::Do),
        b'I' => Some(Fixed::If),
        _ => None,
    }
}

fn of_three(first: u8) -> Option<Fixed>
    ensures { result ≡ alike keywords 3 first }
{
    match first {
        b'I' => Some(Fixed::Int),
        b'N' => Some(Fixed::Not),
        b'O' => Some(Fixed::Obj),
        _ => None,
    }
}

fn of_four(first: u8) -> Option<Fixed>
    ensures { result ≡ alike keywords 4 first }
{
    match first {
        b'C' => Some(Fixed::Call),
        b'I' => Some(Fixed::Init),
        b'R' => Some(Fixed::Read),
        b'T' => Some(Fixed::Then),
        _ => None,
    }
}

fn of_five(first: u8) -> Option<Fixed>
    ensures { result ≡ alike keywords 5 first }
{
    match first {
        b'C' => Some(Fixed::Class),
        b'E' => Some(Fixed::Error),
        b'U' => Some(Fixed::Using),
        b'W' => Some(Fixed::While),
        _ => None,
    }
}

// PRINTI and PRINTS have length and five letters in common: the sixth decides.
fn of_six(first: u8, sixth: u8) -> Option<Fixed>
    ensures { result ≡ six_letters first sixth }
{
    match first {
        b'F' => Some(Fixed::Fields),
        b'M' => Some(Fixed::Method),
        b'P' => if sixth == b'S' {
            Some(Fixed::Prints)
        } else {
            Some(Fixed::Printi)
        },
        _ => None,
    }
}

// The only keyword of its length, where the word begins with its letter.
fn only(fixed: Fixed, letter: u8, first: u8) -> Option<Fixed>
    ensures { result ≡ cond (eqb first letter) (Some fixed) None }
{
    if first == letter { Some(fixed) } else { None }
}

// The one keyword that has the word's length and first letter, if there is one.
pub fn candidate(word: &[u8]) -> Option<Fixed>
    ensures { result ≡ candidate word.now }
{
    match word.len() {
        2 => of_two(word[0]),
        3 => of_three(word[0]),
        4 => of_four(word[0]),
        5 => of_five(word[0]),
        6 => of_six(word[0], word[5]),
        7 => only(Fixed::Returns, b'R', word[0]),
        8 => only(Fixed::Printlns, b'P', word[0]),
        9 => only(Fixed::Procedure, b'P', word[0]),
        10 => only(Fixed::Subclassof, b'S', word[0]),
        _ => None,
    }
}

// Whether the word is this keyword, byte for byte; a fixed lexeme that is no keyword is no word.
pub fn is_keyword(word: &[u8], fixed: Fixed) -> bool
    ensures { result ≡ is_keyword keywords (number fixed) word.now }
{
    match fixed {
        Fixed::Call => is_same(word, b"CALL"),
        Fixed::Class => is_same(word, b"CLASS"),
        Fixed::Do => is_same(word, b"DO"),
        Fixed::Error => is_same(word, b"ERROR"),
        Fixed::Fields => is_same(word, b"FIELDS"),
        Fixed::If => is_same(word, b"IF"),
        Fixed::Init => is_same(word, b"INIT"),
        Fixed::Int => is_same(word, b"INT"),
        Fixed::Method => is_same(word, b"METHOD"),
        Fixed::Not => is_same(word, b"NOT"),
        Fixed::Obj => is_same(word, b"OBJ"),
        Fixed::Printi => is_same(word, b"PRINTI"),
        Fixed::Printlns => is_same(word, b"PRINTLNS"),
        Fixed::Prints => is_same(word, b"PRINTS"),
        Fixed::Procedure => is_same(word, b"PROCEDURE"),
        Fixed::Read => is_same(word, b"READ"),
        Fixed::Returns => is_same(word, b"RETURNS"),
        Fixed::Subclassof => is_same(word, b"SUBCLASSOF"),
        Fixed::Then => is_same(word, b"THEN"),
        Fixed::Using => is_same(word, b"USING"),
        Fixed::While => is_same(word, b"WHILE"),
        _ => false,
    }
}
