// The name ahead: declared, or used.
ghost use Rattle.std.specs.Prelude.{◌≡◌, [], ◌∷◌, pos};
ghost use Rattle.tables.specs.inner.Tables.{put};
ghost use Rattle.names.specs.inner.Held.{declared_in};
ghost use Rattle.compiler.specs.inner.Steps.{one_instruction, HasRoom, cell_of, noted_walk, cell_number, declared_walk};

use crate::walk::Walk;
use base::{Refusal, Refused};
use lexeme::Lexeme;

// The walk after a use of the name l.
#[tactic(auto, unfolding(crate::specs::inner::Steps::noted_walk))]
pub fn noted(w: Walk, c: Option<usize>, l: Lexeme) -> Walk
    ensures { result ≡ noted_walk c w l.place }
{
    match c {
        Some(_) => w,
        None => w.faulted(Refused {
            why: Refusal::Undeclared,
            place: l.place,
        }),
    }
}

// A cell as an operand.
#[tactic(auto, unfolding(crate::specs::inner::Steps::cell_number))]
pub fn operand(c: Option<usize>) -> i32
    ensures { result ≡ pos (cell_number c) }
{
    match c {
        Some(k) => tables::operand(k),
        None => 0,
    }
}

// A use of the name ahead: an instruction on its cell.
pub fn used(text: &[u8], names: &[usize], table: &mut [i32], w: Walk, operation: i32) -> Walk
    requires { HasRoom w }
    ensures { (result ≡ one_instruction (noted_walk (cell_of text.now names.now w.next) w w.next.place)) × (table.new ≡ put table.old w.code (operation ∷ pos (cell_number (cell_of text.now names.now w.next)) ∷ [])) }
{
    let c = scopes::look_up(text, names, w.next.place, w.next.end);
    noted(w, c, w.next).emitted(table, operation, operand(c))
}

// The name ahead declared, or refusal 7.
#[tactic(auto, unfolding(crate::specs::inner::Steps::declared_walk))]
pub fn declared(names: &mut [usize], w: Walk) -> Walk
    ensures value { result ≡ declared_walk names.old w }
    ensures names_after { names.new ≡ declared_in names.old w.next.place w.next.end }
{
    if scopes::declare(names, w.next.place, w.next.end) {
        return w;
    }
    w.faulted(w.refused_ahead(Refusal::TooManyDeclared))
}
