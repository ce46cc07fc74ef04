// How far a reading has come, and what it writes.
ghost use Rattle.std.specs.Prelude.{◌≡◌, [], ◌∷◌, ◌≤◌, eqb, length};
ghost use Rattle.lexeme.specs.inner.Coded.{number, fixed_number};
ghost use Rattle.tables.specs.inner.Tables.{put};
ghost use Rattle.compiler.specs.inner.Steps.{start_at, one_instruction, faulted_walk, HasRoom, followed_by, Advances, Expects};

use base::{Refusal, Refused};
use lexeme::{Fixed, Kind, Lexeme};

// What is threaded through a reading.
#[derive(Clone, Copy)]
pub struct Walk {
    // The lexeme that it stands before.
    pub next: Lexeme,
    // The place of the next instruction.
    pub code: usize,
    // The leftmost refusal of a name so far.
    pub fault: Option<Refused>,
}

impl Walk {
    // Before a text, whose code begins at a place.
    #[tactic(auto, unfolding(lexeme::specs::inner::Coded::code_of))]
    pub fn start(code: usize) -> Walk
        ensures { result ≡ start_at code }
    {
        Walk {
            next: Lexeme {
                kind: Kind::Fixed(Fixed::End),
                place: 0,
                end: 0,
            },
            code,
            fault: None,
        }
    }

    // ---- instructions

    // The walk with a place for one instruction more.
    #[tactic(auto, unfolding(crate::specs::inner::Steps::one_instruction))]
    pub fn skipped(self) -> Walk
        requires { HasRoom self }
        ensures { result ≡ one_instruction self }
    {
        Walk {
            code: self.code + 1,
            ..self
        }
    }

    // The walk with one instruction more.
    pub fn emitted(self, table: &mut [i32], operation: i32, operand: i32) -> Walk
        requires { HasRoom self }
        ensures { (result ≡ one_instruction self) × (table.new ≡ put table.old self.code (operation ∷ operand ∷ [])) }
    {
        tables::put(table, self.code, operation, operand);
        self.skipped()
    }

    // ---- refusals

    // A refusal at the lexeme ahead.
    pub fn refused_ahead(self, why: Refusal) -> Refused
        ensures { result ≡ record { why = why; place = self.next.place } }
    {
        Refused {
            why,
            place: self.next.place,
        }
    }

    // The walk with a name's refusal, unless it had one.
    #[tactic(auto, unfolding(crate::specs::inner::Steps::faulted_walk, crate::specs::inner::Steps::first_fault))]
    pub fn faulted(self, refused: Refused) -> Walk
        ensures { result ≡ faulted_walk self refused }
    {
        Walk {
            fault: self.fault.or(Some(refused)),
            ..self
        }
    }

    // ---- the lexeme ahead

    // Whether this fixed lexeme is ahead.
    pub fn is_ahead(self, fixed: Fixed) -> bool
        ensures { result ≡ eqb (fixed_number self.next.kind) (number fixed) }
    {
        self.next.kind == Kind::Fixed(fixed)
    }

    // Past the lexeme ahead, if a lexeme follows it.
    pub fn advance(self, text: &[u8]) -> Result<Walk, Refused>
        requires { self.next.end ≤ length text.now }
        ensures { Advances text.now self result }
    {
        let next = lexer::next(text, self.next.end)?;
        Ok(Walk { next, ..self })
    }

    // Past one fixed lexeme, and no other.
    pub fn expect(self, text: &[u8], fixed: Fixed) -> Result<Walk, Refused>
        requires { self.next.end ≤ length text.now }
        ensures { Expects text.now self (number fixed) result }
    {
        if self.is_ahead(fixed) {
            return self.advance(text);
        }
        Err(self.refused_ahead(Refusal::NoProgram))
    }
}

// What was read of a construct: the walk after it, and its stack need.
#[derive(Clone, Copy)]
pub struct Read {
    pub walk: Walk,
    pub need: usize,
}

impl Read {
    // With one instruction more.
    pub fn followed(self, table: &mut [i32], operation: i32, operand: i32) -> Read
        requires { HasRoom self.walk }
        ensures { (result ≡ followed_by self) × (table.new ≡ put table.old self.walk.code (operation ∷ operand ∷ [])) }
    {
        Read {
            walk: self.walk.emitted(table, operation, operand),
            need: self.need,
        }
    }
}
