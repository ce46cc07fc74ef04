// The scan of a whole text, which tests the limits of a lexeme: refusals 1, 2 and 3.
#![tactic(auto)]

ghost use Rattle.std.specs.Prelude.{◌≡◌, ◌-◌, ◌≤◌, ltb, length};
ghost use Rattle.limits.specs.Limits.{the_sizes};
ghost use Rattle.lexeme.specs.Lexemes.{lexemes};
ghost use Rattle.lexeme.specs.inner.Coded.{scanned, large};

use base::{Refusal, Refused};
use lexeme::{Fixed, Kind, Lexeme};
use limits::Limits;

// Whether a text is too long: refusal 1.
pub fn too_long(text: &[u8]) -> bool
    ensures { result ≡ ltb Limits.TEXT (length text.now) }
{
    Limits::TEXT < text.len()
}

// Whether a lexeme is too large: refusal 3.
#[tactic(auto, unfolding(lexeme::specs::inner::Coded::large))]
fn is_too_large(l: Lexeme) -> bool
    requires { l.place ≤ l.end }
    ensures { result ≡ large the_sizes l.kind (l.end - l.place) }
{
    let n = l.end - l.place;
    match l.kind {
        Kind::Literal(v) => Limits::LITERAL < v,
        Kind::Name => Limits::WORD < n,
        Kind::Class => Limits::WORD < n,
        Kind::Str => Limits::STRING + 2 < n,
        Kind::Fixed(_) => false,
    }
}

// The end of a whole text, or its leftmost refusal of 2 and 3.
pub fn scan(text: &[u8]) -> Result<Lexeme, Refused>
    ensures { result ≡ scanned text.now (lexemes the_sizes text.now) }
{
    let mut at = 0;
    loop {
        let l = lexer::next(text, at)?;
        if is_too_large(l) {
            return Err(Refused {
                why: Refusal::TooLarge,
                place: l.place,
            });
        }
        if l.kind == Kind::Fixed(Fixed::End) {
            return Ok(l);
        }
        at = l.end;
    }
}
