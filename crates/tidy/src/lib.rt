// A tidy copy of a program: document 02, T-05.
#![tactic(auto)]

ghost use Rattle.std.specs.Prelude.{◌≡◌, ◌++◌, length};
ghost use Rattle.limits.specs.Limits.{the_limits};
ghost use Rattle.tidy.specs.Tidy.{Tidy, tidy_numbers};
ghost use Rattle.tidy.specs.declared.Uncopied.TheVariants.{Refused};
ghost use Rattle.tidy.specs.inner.Copies.{without_zeros, copied, gap, Puts, Writes, CopiedSo};

use base::Refused;
use lexeme::{Fixed, Kind, Lexeme};
use limits::Limits;

// The number of the refusal that is of the copy and not of the text.
pub const NO_ROOM: u8 = 15;

// Why there is no copy of a text.
#[derive(Clone, Copy, PartialEq, Eq, Debug)]
pub enum Uncopied {
    Refused(Refused),
    // The tidy text is longer than the room, or than a text may be.
    NoRoom,
}

impl From<Refused> for Uncopied {
    ghost from_gives = { λ r u. u ≡ Refused r };

    fn from(r: Refused) -> Uncopied {
        Uncopied::Refused(r)
    }
}

// Of a copy: number, place and length, where a refusal has no length. An array, since C reads it as such.
#[tactic(auto, unfolding(crate::specs::Tidy::tidy_numbers))]
pub fn numbers(t: Result<usize, Uncopied>) -> [u64; 3]
    ensures { result ≡ tidy_numbers t }
{
    match t {
        Ok(n) => [0, 0, n as u64],
        Err(Uncopied::Refused(r)) => [base::number(r.why) as u64, r.place as u64, 0],
        Err(Uncopied::NoRoom) => [NO_ROOM as u64, 0, 0],
    }
}

// A digit word without needless zeros: those that another digit follows, and only zeros stand before.
fn without_zeros(word: &[u8]) -> &[u8]
    ensures { result.now ≡ without_zeros word.now }
{
    let last = word.len().saturating_sub(1);
    let from = word[..last].iter().position(|b| *b != b'0').unwrap_or(last);
    &word[from..]
}

// The bytes of the text that are a lexeme as it is always written.
fn copied(text: &[u8], l: Lexeme) -> &[u8]
    ensures { result.now ≡ copied text.now l }
{
    let own = base::part(text, l.place, l.end);
    match l.kind {
        Kind::Literal(_) => without_zeros(own),
        _ => own,
    }
}

// A space, where something stands before it.
fn put_space(room: &mut [u8], at: usize) -> Option<usize>
    ensures { Puts (gap at) room.old at result room.new }
{
    if at == 0 {
        return Some(0);
    }
    rooms::print(room, at, b" ", false)
}

// A lexeme's bytes, one space after what stands before them.
fn put(room: &mut [u8], at: usize, bytes: &[u8]) -> Option<usize>
    ensures { Puts (gap at ++ bytes.now) room.old at result room.new }
{
    let next = put_space(room, at)?;
    rooms::print(room, next, bytes, false)
}

// The lexemes of a text that has been judged, with one space between, from the room's beginning on.
fn write(text: &[u8], room: &mut [u8]) -> Option<usize>
    ensures { Writes text.now room.old result room.new }
{
    let mut at = 0;
    let mut n = 0;
    loop {
        // In a text that has been judged nothing is refused.
        let l = lexer::next(text, at).ok()?;
        if l.kind == Kind::Fixed(Fixed::End) {
            return Some(n);
        }
        n = put(room, n, copied(text, l))?;
        at = l.end;
    }
}

// The copy of a text: what stands past it in the room is not said.
fn copy(text: &[u8], room: &mut [u8]) -> Result<usize, Uncopied>
    ensures { CopiedSo the_limits text.entry.now room.old result room.new }
{
    compiler::judge(text)?;
    let most = room.len().min(Limits::TEXT);
    write(text, &mut room[..most]).ok_or(Uncopied::NoRoom)
}

// The text's lexemes with one space between, and zeros in the rest of the room.
pub fn tidy(text: &[u8], room: &mut [u8]) -> Result<usize, Uncopied>
    ensures { Tidy the_limits text.entry.now (length room.old) result room.new }
{
    let copied = copy(text, room);
    // A refusal has no bytes.
    rooms::clear_from(room, copied.unwrap_or(0));
    copied
}
