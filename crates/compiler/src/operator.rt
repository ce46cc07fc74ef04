// Operators and relations: which lexemes they are, and their operations.
ghost use Rattle.std.specs.Prelude.{◌≡◌};
ghost use Rattle.lexeme.specs.inner.Coded.{number};
ghost use Rattle.sentence.proofs.Reader.{is_sign, is_mul, is_rel};
ghost use Rattle.compiler.specs.inner.Steps.{such_in, operation_number};

use instruction::operations;
use lexeme::{Fixed, Kind};

// The sign that a lexeme of this kind is, if it is one.
#[tactic(auto, unfolding(crate::specs::inner::Steps::such_in, lexeme::specs::inner::Coded::fixed_number, sentence::proofs::Reader::is_sign, lexeme::specs::inner::Coded::code_of))]
pub fn sign_in(kind: Kind) -> Option<Fixed>
    ensures { result ≡ such_in is_sign kind }
{
    match kind {
        Kind::Fixed(f @ (Fixed::Plus | Fixed::Minus)) => Some(f),
        _ => None,
    }
}

// The `*` or `/` that it is.
#[tactic(auto, unfolding(crate::specs::inner::Steps::such_in, lexeme::specs::inner::Coded::fixed_number, sentence::proofs::Reader::is_mul, lexeme::specs::inner::Coded::code_of))]
pub fn mul_in(kind: Kind) -> Option<Fixed>
    ensures { result ≡ such_in is_mul kind }
{
    match kind {
        Kind::Fixed(f @ (Fixed::Star | Fixed::Slash)) => Some(f),
        _ => None,
    }
}

// The relation that it is.
#[tactic(auto, unfolding(crate::specs::inner::Steps::such_in, lexeme::specs::inner::Coded::fixed_number, sentence::proofs::Reader::is_rel, lexeme::specs::inner::Coded::code_of))]
pub fn rel_in(kind: Kind) -> Option<Fixed>
    ensures { result ≡ such_in is_rel kind }
{
    match kind {
        Kind::Fixed(f @ (Fixed::Less | Fixed::Greater | Fixed::Equals)) => Some(f),
        _ => None,
    }
}

// The operation of an operator or a relation.
#[tactic(auto, unfolding(crate::specs::inner::Steps::operation_number, instruction::specs::Instructions::number))]
pub fn operation(f: Fixed) -> i32
    ensures { result ≡ operation_number (number f) }
{
    match f {
        Fixed::Plus => operations::PLUS,
        Fixed::Minus => operations::MINUS,
        Fixed::Star => operations::TIMES,
        Fixed::Slash => operations::DIVIDE,
        Fixed::Equals => operations::EQUALS,
        Fixed::Less => operations::SMALLER,
        _ => operations::GREATER,
    }
}
