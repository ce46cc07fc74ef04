// Expressions and conditions: one walk reads and translates. Repetition is by loops; only brackets and NOT recurse.
ghost use Rattle.std.specs.Prelude.{◌≡◌, [], ◌∷◌, pos};
ghost use Rattle.lexeme.specs.inner.Coded.{number};
ghost use Rattle.tables.specs.inner.Tables.{put};
ghost use Rattle.compiler.specs.inner.Steps.{NoOperand, Fits, joined_walk, operation_number};
ghost use Rattle.compiler.specs.inner.Walks.{Ready, ReadsFactor, ReadsTerm, ReadsFirstTerm, ReadsExpression, ReadsCondition, ReadsComparison};

use crate::walk::{Read, Walk};
use crate::{naming, operator};
use base::{Refusal, Refused};
use instruction::operations;
use lexeme::{Fixed, Kind};

#[cycle(bracket_expression_factor_first_term_term)]
fn factor(
    allow: usize,
    text: &[u8],
    names: &[usize],
    table: &mut [i32],
    w: Walk,
) -> Result<Read, Refused>
    requires { Ready text.now names.now w allow }
    ensures { ReadsFactor text.now names.now table.old w allow result names.now table.new }
{
    match w.next.kind {
        Kind::Literal(v) => {
            let x = w.emitted(table, operations::PUSH_INT, tables::operand(v as usize));
            Ok(Read {
                walk: x.advance(text)?,
                need: 1,
            })
        }
        Kind::Name => {
            let x = naming::used(text, names, table, w, operations::LOAD_STACK);
            Ok(Read {
                walk: x.advance(text)?,
                need: 1,
            })
        }
        _ => bracket(allow, text, names, table, w),
    }
}

// `(`, an Expression, `)`. Nothing else begins a Factor that is no literal and no name.
#[cycle(bracket_expression_factor_first_term_term)]
fn bracket(
    allow: usize,
    text: &[u8],
    names: &[usize],
    table: &mut [i32],
    w: Walk,
) -> Result<Read, Refused>
    requires ready { Ready text.now names.now w allow }
    requires no_operand { NoOperand w.next.kind }
    ensures { ReadsFactor text.now names.now table.old w allow result names.now table.new }
{
    if !w.is_ahead(Fixed::OpenRound) {
        return Err(w.refused_ahead(Refusal::NoProgram));
    }
    if allow == 0 {
        return Err(w.refused_ahead(Refusal::TooDeep));
    }
    let x = w.advance(text)?;
    let r = expression(allow - 1, text, names, table, x)?;
    Ok(Read {
        walk: r.walk.expect(text, Fixed::CloseRound)?,
        need: r.need,
    })
}

// After both sides of the operator or relation f: its operation, and the need of both.
fn joined(table: &mut [i32], f: Fixed, left: usize, right: Read) -> Read
    requires { Fits right }
    ensures value { result ≡ joined_walk left right }
    ensures table_after { table.new ≡ put table.old right.walk.code (operation_number (number f) ∷ pos 0 ∷ []) }
{
    Read {
        walk: right.walk.emitted(table, operator::operation(f), 0),
        need: tables::two_sided_need(left, right.need),
    }
}

// A loop of its own beside `expression`'s: one for both would call its operator and its reader through closures, inside the cycle of calls that they stand in.
#[cycle(bracket_expression_factor_first_term_term)]
fn term(
    allow: usize,
    text: &[u8],
    names: &[usize],
    table: &mut [i32],
    w: Walk,
) -> Result<Read, Refused>
    requires { Ready text.now names.now w allow }
    ensures { ReadsTerm text.now names.now table.old w allow result names.now table.new }
{
    let mut so_far = factor(allow, text, names, table, w)?;
    while let Some(f) = operator::mul_in(so_far.walk.next.kind) {
        let x = so_far.walk.advance(text)?;
        let right = factor(allow, text, names, table, x)?;
        so_far = joined(table, f, so_far.need, right);
    }
    Ok(so_far)
}

// One sign or none, and a Term.
#[cycle(bracket_expression_factor_first_term_term)]
fn first_term(
    allow: usize,
    text: &[u8],
    names: &[usize],
    table: &mut [i32],
    w: Walk,
) -> Result<Read, Refused>
    requires { Ready text.now names.now w allow }
    ensures { ReadsFirstTerm text.now names.now table.old w allow result names.now table.new }
{
    let Some(f) = operator::sign_in(w.next.kind) else {
        return term(allow, text, names, table, w);
    };
    let x = w.advance(text)?;
    let r = term(allow, text, names, table, x)?;
    if f == Fixed::Minus {
        return Ok(r.followed(table, operations::NEGATE, 0));
    }
    Ok(r)
}

#[cycle(bracket_expression_factor_first_term_term)]
pub fn expression(
    allow: usize,
    text: &[u8],
    names: &[usize],
    table: &mut [i32],
    w: Walk,
) -> Result<Read, Refused>
    requires { Ready text.now names.now w allow }
    ensures { ReadsExpression text.now names.now table.old w allow result names.now table.new }
{
    let mut so_far = first_term(allow, text, names, table, w)?;
    while let Some(f) = operator::sign_in(so_far.walk.next.kind) {
        let x = so_far.walk.advance(text)?;
        let right = term(allow, text, names, table, x)?;
        so_far = joined(table, f, so_far.need, right);
    }
    Ok(so_far)
}

pub fn condition(
    allow: usize,
    text: &[u8],
    names: &[usize],
    table: &mut [i32],
    w: Walk,
) -> Result<Read, Refused>
    requires { Ready text.now names.now w allow }
    ensures { ReadsCondition text.now names.now table.old w allow result names.now table.new }
{
    if !w.is_ahead(Fixed::Not) {
        return comparison(allow, text, names, table, w);
    }
    if allow == 0 {
        return Err(w.refused_ahead(Refusal::TooDeep));
    }
    let x = w.advance(text)?;
    let r = condition(allow - 1, text, names, table, x)?;
    Ok(r.followed(table, operations::NOT, 0))
}

// An Expression, one relation, an Expression.
fn comparison(
    allow: usize,
    text: &[u8],
    names: &[usize],
    table: &mut [i32],
    w: Walk,
) -> Result<Read, Refused>
    requires { Ready text.now names.now w allow }
    ensures { ReadsComparison text.now names.now table.old w allow result names.now table.new }
{
    let left = expression(allow, text, names, table, w)?;
    let Some(f) = operator::rel_in(left.walk.next.kind) else {
        return Err(left.walk.refused_ahead(Refusal::NoProgram));
    };
    let x = left.walk.advance(text)?;
    let right = expression(allow, text, names, table, x)?;
    Ok(joined(table, f, left.need, right))
}
