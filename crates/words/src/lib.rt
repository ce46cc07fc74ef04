// The refusals and the endings in plain words, added to a page.
#![tactic(auto)]

ghost use Rattle.std.specs.Prelude.{◌≡◌, cond, ◌≤◌, length, get_or};
ghost use Rattle.lines.specs.Added.{Added};
ghost use Rattle.words.specs.Words.{no_lexeme, too_large, row, why_row, how_row, in_words, why, how};

use base::{Refusal, Refused};
use limits::{Limits, Station};

// The numbers that the words name.
#[derive(Clone, Copy)]
pub struct Numbers {
    pub text: usize,
    pub word: usize,
    pub string: usize,
    pub literal: u32,
    pub nesting: usize,
    pub declarations: usize,
    pub instructions: usize,
    pub budget: u32,
    pub room: usize,
}

// The paper's.
pub fn of_the_paper() -> Numbers
    ensures text { (result.text ≡ Limits.TEXT) × (result.nesting ≡ Limits.NESTING) × (result.declarations ≡ Limits.DECLARATIONS) × (result.instructions ≡ Limits.INSTRUCTIONS) }
    ensures lexemes { (result.word ≡ Limits.WORD) × (result.string ≡ Limits.STRING) × (result.literal ≡ Limits.LITERAL) }
    ensures run { (result.budget ≡ Station.BUDGET) × (result.room ≡ Station.ROOM) }
{
    Numbers {
        text: Limits::TEXT,
        word: Limits::WORD,
        string: Limits::STRING,
        literal: Limits::LITERAL,
        nesting: Limits::NESTING,
        declarations: Limits::DECLARATIONS,
        instructions: Limits::INSTRUCTIONS,
        budget: Station::BUDGET,
        room: Station::ROOM,
    }
}

// A row of a table, and the number in the place of its sign.
#[derive(Clone, Copy)]
struct Row {
    line: usize,
    number: u64,
}

impl Row {
    fn new(line: usize, number: u64) -> Row
        ensures { result ≡ row line number }
    {
        Row { line, number }
    }
}

// The byte at a place, or 0 past the text.
fn byte_at(text: &[u8], place: usize) -> u8
    ensures { result ≡ get_or text.now place 0 }
{
    text.get(place).copied().unwrap_or(0)
}

#[tactic(auto, unfolding(crate::specs::Words::no_lexeme))]
fn no_lexeme(b: u8) -> usize
    ensures { result ≡ no_lexeme b }
{
    match b {
        b'"' => 1,
        b':' => 2,
        _ if base::is_letter_or_digit(b) => 3,
        128..=255 => 4,
        _ => 5,
    }
}

#[tactic(auto, unfolding(crate::specs::Words::too_large))]
fn too_large(n: Numbers, b: u8) -> Row
    ensures { result ≡ too_large n b }
{
    match b {
        b'"' => Row::new(6, n.string as u64),
        _ if base::is_digit(b) => Row::new(7, n.literal as u64),
        _ => Row::new(8, n.word as u64),
    }
}

fn cannot_stand(ends: bool) -> usize
    ensures { result ≡ cond ends 9 10 }
{
    if ends { 9 } else { 10 }
}

#[tactic(auto, unfolding(crate::specs::Words::why_row))]
fn why_row(n: Numbers, text: &[u8], r: Refused) -> Row
    ensures { result ≡ why_row n text.now r.why r.place }
{
    match r.why {
        Refusal::TooLong => Row::new(0, n.text as u64),
        Refusal::NoLexeme => Row::new(no_lexeme(byte_at(text, r.place)), 0),
        Refusal::TooLarge => too_large(n, byte_at(text, r.place)),
        Refusal::NoProgram => Row::new(cannot_stand(text.len() <= r.place), 0),
        Refusal::TooDeep => Row::new(11, n.nesting as u64),
        Refusal::Undeclared => Row::new(12, 0),
        Refusal::TooManyDeclared => Row::new(13, n.declarations as u64),
        Refusal::TooMuchCode => Row::new(14, n.instructions as u64),
    }
}

// A number that is no ending's gets the last row.
#[tactic(auto, unfolding(crate::specs::Words::how_row))]
fn how_row(n: Numbers, ending: u8) -> Row
    ensures { result ≡ how_row n ending }
{
    match ending {
        2 => Row::new(2, n.budget as u64),
        7 => Row::new(7, n.room as u64),
        other => Row::new((other as usize).min(8), 0),
    }
}

#[tactic(auto, unfolding(crate::specs::Words::in_words))]
fn put_row(page: &mut [u8], at: usize, table: &[u8], row: Row) -> usize
    ensures { Added (in_words table.now row) page.old at page.new result }
{
    let form = rows::nth(table, b'\n', row.line);
    lines::fill(page, at, form, &[row.number])
}

// Why a text is refused.
pub fn put_why(page: &mut [u8], at: usize, n: Numbers, text: &[u8], r: Refused) -> usize
    ensures added { Added (why n text.now r.why r.place) page.old at page.new result }
    ensures short { length (why n text.now r.why r.place) ≤ 160 }
{
    let row = why_row(n, text, r);
    put_row(
        page,
        at,
        b"The text is longer than # bytes. Make it shorter.
This string is never closed. Is a quote missing at its end?
A colon stands only before =, as in t := 1.
This word mixes letters and digits. Only a name may, and a name begins with a small letter.
O has only plain characters. Is this a quotation mark of another kind? A string stands between two of these: \"
O does not use this character.
This string has more than # bytes between its quotes. Print it in parts.
This number is larger than #, the largest there is.
This word has more than # letters and digits. Choose a shorter one.
The text ends here, and the program is not finished. Is a } or a command missing?
This cannot stand here. Read the sentence aloud up to the mark: what should follow?
This is too deep: of ( { IF WHILE NOT only # may be open at once. Split the sentence.
This name is not declared here. Write INT and the name before it, in this block or one around it. The body of an IF or WHILE is a block too.
This is one declaration too many: a text may have #. Use fewer variables.
The program is too long: its code may have # instructions. Make it shorter.
",
        row,
    )
}

// How a run ended.
pub fn put_how(page: &mut [u8], at: usize, n: Numbers, ending: u8) -> usize
    ensures added { Added (how n ending) page.old at page.new result }
    ensures short { length (how n ending) ≤ 160 }
{
    let row = how_row(n, ending);
    put_row(
        page,
        at,
        b"It came to its end. What it printed may be sent on.
It met ERROR: the program itself says that something is wrong.
It used up its # steps. Is there a WHILE whose condition stays true?
READ found no reading left. Give it more readings, or read fewer.
A result was outside -2147483648 to 2147483647. Which sum or product grows so large?
It divided by 0. Test for 0 before you divide.
The stack was full.
The output does not fit its # bytes. Print less.
The code was bad.
",
        row,
    )
}
