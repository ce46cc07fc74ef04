// From a pair of numbers to its instruction.
ghost use Rattle.std.specs.Prelude.{◌≡◌, nat_abs, SomeIff, pos, ◌≤ℤ◌};
ghost use Rattle.instruction.specs.Instructions.{alone, halting, decode};
ghost use Rattle.instruction.specs.inner.Coded.{as_done, as_instruction};

use super::operations;
use endings::Ending;
use numbers::arith::Operator;

// An instruction as it is done: one for the operators and relations.
#[derive(Clone, Copy, PartialEq, Eq, Debug)]
pub enum Op {
    Halt(Ending),
    PushInt(i32),
    LoadStack(usize),
    StoreStack(usize),
    Jump(usize),
    JumpIfFalse(usize),
    TwoSided(Operator),
    Negate,
    Not,
    Read,
    PrintInt,
    PrintStr(usize),
    PrintStrLn(usize),
}

// An unused operand is 0.
#[tactic(auto, using(numbers::proofs::Signed::zero_test, crate::proofs::Codes::tested), unfolding(crate::specs::Instructions::alone))]
fn alone(o: Op, a: i32) -> Option<Op>
    ensures { as_instruction result ≡ alone (as_done o) a }
{
    (a == 0).then_some(o)
}

// A Halt's operand is 0 or 1.
#[tactic(auto, using(crate::proofs::Codes::no_halting), unfolding(crate::specs::Instructions::halting))]
fn halting(a: i32) -> Option<Op>
    ensures { as_instruction result ≡ halting a }
{
    match a {
        0 => Some(Op::Halt(Ending::Normal)),
        1 => Some(Op::Halt(Ending::StoppedByError)),
        _ => None,
    }
}

// A place or a cell is not below zero.
fn natural(a: i32) -> Option<usize>
    ensures { SomeIff result (pos 0 ≤ℤ a) (nat_abs a) }
{
    usize::try_from(a).ok()
}

// Each operation tests its own operand, so that a step tests nothing that belongs to another. None is bad code.
#[tactic(auto, using(crate::proofs::Codes::found, crate::proofs::Codes::no_operation), unfolding(crate::specs::Instructions::operation, crate::specs::Instructions::opcode, crate::specs::Instructions::encode, crate::specs::Instructions::number, crate::specs::Instructions::natural))]
pub fn decode(operation: i32, a: i32) -> Option<Op>
    ensures { as_instruction result ≡ decode operation a }
{
    match operation {
        operations::HALT => halting(a),
        operations::PUSH_INT => Some(Op::PushInt(a)),
        operations::LOAD_STACK => Some(Op::LoadStack(natural(a)?)),
        operations::STORE_STACK => Some(Op::StoreStack(natural(a)?)),
        operations::JUMP => Some(Op::Jump(natural(a)?)),
        operations::JUMP_IF_FALSE => Some(Op::JumpIfFalse(natural(a)?)),
        operations::PLUS => alone(Op::TwoSided(Operator::Plus), a),
        operations::MINUS => alone(Op::TwoSided(Operator::Minus), a),
        operations::TIMES => alone(Op::TwoSided(Operator::Times), a),
        operations::DIVIDE => alone(Op::TwoSided(Operator::Divide), a),
        operations::EQUALS => alone(Op::TwoSided(Operator::Equals), a),
        operations::SMALLER => alone(Op::TwoSided(Operator::Smaller), a),
        operations::GREATER => alone(Op::TwoSided(Operator::Greater), a),
        operations::NEGATE => alone(Op::Negate, a),
        operations::NOT => alone(Op::Not, a),
        operations::READ => alone(Op::Read, a),
        operations::PRINT_INT => alone(Op::PrintInt, a),
        operations::PRINT_STR => Some(Op::PrintStr(natural(a)?)),
        operations::PRINT_STR_LN => Some(Op::PrintStrLn(natural(a)?)),
        _ => None,
    }
}
