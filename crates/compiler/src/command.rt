// Commands: one walk reads and translates. Only bodies and blocks recurse; the commands of a block are a loop.
ghost use Rattle.std.specs.Prelude.{◌≡◌, false, suc, ◌<◌};
ghost use Rattle.lexeme.specs.inner.Coded.{variant_of, fixed_number};
ghost use Rattle.compiler.specs.inner.Steps.{moved_to, printing_number, has_body, before_body, HasRoom, ended_walk, ended_table};
ghost use Rattle.compiler.specs.inner.Walks.{Ready, First, ReadsCommand, ReadsPrint, ReadsString, ReadsDeclare, ReadsRead, ReadsAssign, ReadsBody, ReadsGuarded, ReadsBlock};

use crate::walk::{Read, Walk};
use crate::{expression, naming};
use base::{Refusal, Refused};
use instruction::operations;
use lexeme::{Fixed, Kind, Lexeme};

// ---- after the first lexeme of a command without a body

// After PRINTI.
fn print_int(
    allow: usize,
    text: &[u8],
    names: &[usize],
    table: &mut [i32],
    w: Walk,
) -> Result<Read, Refused>
    requires { Ready text.now names.now w allow }
    ensures { ReadsPrint text.now names.now table.old w allow result names.now table.new }
{
    let r = expression::expression(allow, text, names, table, w)?;
    Ok(r.followed(table, operations::PRINT_INT, 0))
}

// The operation of PRINTLNS, which prints a line, or of PRINTS.
#[tactic(auto, unfolding(crate::specs::inner::Steps::printing_number, instruction::specs::Instructions::encode, instruction::specs::Instructions::opcode))]
fn printing(line: bool) -> i32
    ensures { result ≡ printing_number line }
{
    if line {
        operations::PRINT_STR_LN
    } else {
        operations::PRINT_STR
    }
}

// After PRINTLNS or PRINTS.
fn print_string(
    allow: usize,
    text: &[u8],
    names: &[usize],
    table: &mut [i32],
    w: Walk,
    line: bool,
) -> Result<Read, Refused>
    requires { Ready text.now names.now w allow }
    ensures { ReadsString line text.now names.now table.old w allow result names.now table.new }
{
    let Kind::Str = w.next.kind else {
        return Err(w.refused_ahead(Refusal::NoProgram));
    };
    let s = (w.next.place + 1) as i32;
    let x = w.emitted(table, printing(line), s);
    Ok(Read {
        walk: x.advance(text)?,
        need: 0,
    })
}

// After INT.
fn declare(
    allow: usize,
    text: &[u8],
    names: &mut [usize],
    table: &mut [i32],
    w: Walk,
) -> Result<Read, Refused>
    requires { Ready text.now names.old w allow }
    ensures { ReadsDeclare text.now names.old table.old w allow result names.new table.new }
{
    let Kind::Name = w.next.kind else {
        return Err(w.refused_ahead(Refusal::NoProgram));
    };
    let s = scopes::counts(names);
    let x = w.emitted(table, operations::PUSH_INT, 0);
    let y = x.emitted(table, operations::STORE_STACK, s.next_cell as i32);
    Ok(Read {
        walk: naming::declared(names, y).advance(text)?,
        need: 1,
    })
}

// After READ.
fn read(
    allow: usize,
    text: &[u8],
    names: &[usize],
    table: &mut [i32],
    w: Walk,
) -> Result<Read, Refused>
    requires { Ready text.now names.now w allow }
    ensures { ReadsRead text.now names.now table.old w allow result names.now table.new }
{
    let Kind::Name = w.next.kind else {
        return Err(w.refused_ahead(Refusal::NoProgram));
    };
    let x = w.emitted(table, operations::READ, 0);
    let y = naming::used(text, names, table, x, operations::STORE_STACK);
    Ok(Read {
        walk: y.advance(text)?,
        need: 1,
    })
}

// After the name l. It is looked up first, since it stands left of the Expression's names.
fn assign(
    allow: usize,
    text: &[u8],
    names: &[usize],
    table: &mut [i32],
    w: Walk,
    l: Lexeme,
) -> Result<Read, Refused>
    requires { Ready text.now names.now w allow }
    ensures { ReadsAssign l text.now names.now table.old w allow result names.now table.new }
{
    let c = scopes::look_up(text, names, l.place, l.end);
    let x = naming::noted(w, c, l).expect(text, Fixed::Becomes)?;
    let r = expression::expression(allow, text, names, table, x)?;
    Ok(r.followed(table, operations::STORE_STACK, naming::operand(c)))
}

// ---- around the body of an IF or a WHILE

// DO, which stands before a body that is done again, or of THEN.
#[tactic(auto, unfolding(crate::specs::inner::Steps::before_body))]
fn before_body(again: bool) -> Fixed
    ensures { result ≡ variant_of (before_body again) }
{
    if again { Fixed::Do } else { Fixed::Then }
}

// After the body: WHILE jumps back to its condition.
#[tactic(auto, unfolding(crate::specs::inner::Steps::ended_walk, crate::specs::inner::Steps::ended_table, instruction::specs::Instructions::encode))]
fn ended(table: &mut [i32], w: Walk, again: bool, back: usize) -> Walk
    requires { HasRoom w × (back < 10000000) }
    ensures { (result ≡ ended_walk again w) × (table.new ≡ ended_table again table.old w.code back) }
{
    if again {
        return w.emitted(table, operations::JUMP, back as i32);
    }
    w
}

// ---- commands

// A command without a body, after its first lexeme l; nothing else begins a command.
fn without_body(
    allow: usize,
    text: &[u8],
    names: &mut [usize],
    table: &mut [i32],
    w: Walk,
    l: Lexeme,
) -> Result<Read, Refused>
    requires first { First text.now names.old (moved_to w l) allow w }
    requires kind_value { has_body (fixed_number l.kind) ≡ false }
    ensures { ReadsCommand text.now names.old table.old (moved_to w l) allow result names.new table.new }
{
    match l.kind {
        Kind::Name => assign(allow, text, names, table, w, l),
        Kind::Fixed(Fixed::Error) => Ok(Read {
            walk: w.emitted(table, operations::HALT, 1),
            need: 0,
        }),
        Kind::Fixed(Fixed::Int) => declare(allow, text, names, table, w),
        Kind::Fixed(Fixed::Printi) => print_int(allow, text, names, table, w),
        Kind::Fixed(Fixed::Printlns) => print_string(allow, text, names, table, w, true),
        Kind::Fixed(Fixed::Prints) => print_string(allow, text, names, table, w, false),
        Kind::Fixed(Fixed::Read) => read(allow, text, names, table, w),
        _ => Err(Refused {
            why: Refusal::NoProgram,
            place: l.place,
        }),
    }
}

// Whether a command that begins so has a body.
#[tactic(auto, unfolding(crate::specs::inner::Steps::has_body, lexeme::specs::inner::Coded::fixed_number, lexeme::specs::inner::Coded::code_of))]
fn has_body(kind: Kind) -> bool
    ensures { result ≡ has_body (fixed_number kind) }
{
    matches!(
        kind,
        Kind::Fixed(Fixed::If | Fixed::While | Fixed::OpenBrace)
    )
}

#[cycle(block_body_command_guarded)]
pub fn command(
    allow: usize,
    text: &[u8],
    names: &mut [usize],
    table: &mut [i32],
    w: Walk,
) -> Result<Read, Refused>
    requires { Ready text.now names.old w allow }
    ensures { ReadsCommand text.now names.old table.old w allow result names.new table.new }
{
    let x = w.advance(text)?;
    if !has_body(w.next.kind) {
        return without_body(allow, text, names, table, x, w.next);
    }
    if allow == 0 {
        return Err(w.refused_ahead(Refusal::TooDeep));
    }
    if w.is_ahead(Fixed::OpenBrace) {
        return block(allow - 1, text, names, table, x);
    }
    guarded(allow - 1, text, names, table, x, w.is_ahead(Fixed::While))
}

// After IF, or after WHILE, whose body is done again; with so many nestings allowed inside.
#[cycle(block_body_command_guarded)]
fn guarded(
    allow: usize,
    text: &[u8],
    names: &mut [usize],
    table: &mut [i32],
    w: Walk,
    again: bool,
) -> Result<Read, Refused>
    requires { Ready text.now names.old w (suc allow) }
    ensures { ReadsGuarded again text.now names.old table.old w allow result names.new table.new }
{
    let test = expression::condition(allow, text, names, table, w)?;
    let x = test.walk.expect(text, before_body(again))?;
    let inside = body(allow, text, names, table, x.skipped())?;
    let end = ended(table, inside.walk, again, w.code);
    tables::put_jump_if_false(table, test.walk.code, end.code);
    Ok(Read {
        walk: end,
        need: test.need.max(inside.need),
    })
}

// The body of an IF or a WHILE, with so many nestings allowed inside: a Command in a scope of its own.
#[cycle(block_body_command_guarded)]
fn body(
    allow: usize,
    text: &[u8],
    names: &mut [usize],
    table: &mut [i32],
    w: Walk,
) -> Result<Read, Refused>
    requires { Ready text.now names.old w (suc allow) }
    ensures { ReadsBody text.now names.old table.old w allow result names.new table.new }
{
    let outside = scopes::counts(names);
    scopes::open(names);
    let r = command(allow, text, names, table, w);
    scopes::close(names, outside);
    r
}

// After `{`, with so many nestings allowed inside.
#[cycle(block_body_command_guarded)]
fn block(
    allow: usize,
    text: &[u8],
    names: &mut [usize],
    table: &mut [i32],
    w: Walk,
) -> Result<Read, Refused>
    requires { Ready text.now names.old w (suc allow) }
    ensures { ReadsBlock text.now names.old table.old w allow result names.new table.new }
{
    let before = scopes::counts(names);
    scopes::open(names);
    let mut so_far = command(allow, text, names, table, w)?;
    while !so_far.walk.is_ahead(Fixed::CloseBrace) {
        let r = command(allow, text, names, table, so_far.walk)?;
        so_far = Read {
            walk: r.walk,
            need: so_far.need.max(r.need),
        };
    }
    scopes::close(names, before);
    Ok(Read {
        walk: so_far.walk.advance(text)?,
        need: so_far.need,
    })
}
