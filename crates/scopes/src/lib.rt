// What a name's use, a declaration, and a scope's beginning and end do to the list that holds what is known.
#![tactic(auto)]

ghost use Rattle.std.specs.Prelude.{◌≡◌, [], ◌∷◌, true, false, ℕ, ◌+◌, ◌*◌, ◌<◌, ltb, get_or, set};
ghost use Rattle.std.proofs.lemmas.List.Edits.{sets};
ghost use Rattle.base.specs.Bytes.{same};
ghost use Rattle.base.specs.inner.Parts.{part};
ghost use Rattle.names.specs.inner.Held.{counts, room, with_counts, no_counts, one_up, held, visible_in, latest, declared_scope, entered, declared_in, opened_in, closed_in};

use names::{COUNTS, ENTRY, Scope};

// ---- the counts

// The i-th number of the list, 0 past its end.
fn get(names: &[usize], i: usize) -> usize
    ensures { result ≡ get_or names.now i 0 }
{
    names.get(i).copied().unwrap_or(0)
}

// The i-th number of the list becomes v, if the list has it.
#[tactic(auto, using(std::proofs::lemmas::List::set_past))]
fn put(names: &mut [usize], i: usize, v: usize)
    ensures { names.new ≡ set names.old i v }
{
    // Not by `get_mut`: after a slice's, a proof knows the length and no number.
    if i < names.len() {
        names[i] = v;
    }
}

pub fn counts(names: &[usize]) -> Scope
    ensures { result ≡ counts names.now }
{
    Scope {
        visible: get(names, 0),
        declared: get(names, 1),
        next_cell: get(names, 2),
        cells: get(names, 3),
        blocks: get(names, 4),
    }
}

#[tactic(auto, unfolding(names::specs::inner::Held::with_counts))]
fn put_counts(names: &mut [usize], s: Scope)
    ensures { names.new ≡ with_counts names.old s }
{
    put(names, 0, s.visible);
    put(names, 1, s.declared);
    put(names, 2, s.next_cell);
    put(names, 3, s.cells);
    put(names, 4, s.blocks);
}

// Before a text: nothing is declared, and no block is open.
pub fn start(names: &mut [usize])
    ensures { names.new ≡ with_counts names.old no_counts }
{
    put_counts(names, Scope::default());
}

// One more, as far as numbers go.
#[tactic(auto, unfolding(names::specs::inner::Held::one_up))]
fn one_more(n: usize) -> usize
    ensures { result ≡ one_up n }
{
    n.saturating_add(1)
}

// How many declarations the list has room for.
fn room(names: &[usize]) -> usize
    ensures { result ≡ room names.now }
{
    if names.len() < COUNTS {
        return 0;
    }
    (names.len() - COUNTS) / ENTRY
}

// ---- a use

// Whether the word is another than any that ends before the place e, by its last letter.
fn is_other(text: &[u8], e: usize, word: &[u8]) -> bool
    ensures { result ≡ true → (p : ℕ) → false ≡ same (part text.now p e) word.now }
{
    if word.is_empty() || e == 0 || text.len() < e {
        return false;
    }
    text[e - 1] != word[word.len() - 1]
}

// Whether the k-th declaration of the list is spelled like the word. Most end with another letter or digit, numbered ones too.
#[tactic(auto, unfolding(names::specs::inner::Held::held))]
fn is_named(text: &[u8], names: &[usize], k: usize, word: &[u8]) -> bool
    requires { k < room names.now }
    ensures { result ≡ same (held text.now names.now k).spelled word.now }
{
    let at = COUNTS + k * ENTRY;
    let e = names[at + 1];
    if is_other(text, e, word) {
        return false;
    }
    let p = names[at];
    base::is_same(base::part(text, p, e), word)
}

// The latest visible declaration of the name from the place p up to e.
#[tactic(auto, using(names::proofs::Found::found_room, names::proofs::Found::found_none, names::proofs::Found::found_last, names::proofs::Found::found_before), unfolding(names::specs::inner::Held::held))]
pub fn look_up(text: &[u8], names: &[usize], p: usize, e: usize) -> Option<usize>
    ensures { result ≡ latest (visible_in text.now names.now (counts names.now).visible) (part text.now p e) }
{
    let word = base::part(text, p, e);
    let visible = get(names, 0).min(room(names));
    for k in (0..visible).rev() {
        if is_named(text, names, k, word) {
            return Some(names[COUNTS + k * ENTRY + 2]);
        }
    }
    None
}

// ---- a declaration

// The k-th declaration of the list becomes that of the name from p up to e.
fn enter(names: &mut [usize], k: usize, p: usize, e: usize, cell: usize, block: usize)
    requires { k < room names.old }
    ensures { names.new ≡ sets names.old (5 + k * 4) (p ∷ e ∷ cell ∷ block ∷ []) }
{
    let at = COUNTS + k * ENTRY;
    names[at..at + ENTRY].copy_from_slice(&[p, e, cell, block]);
}

// The list with one declaration more, where it has room.
#[tactic(auto, unfolding(names::specs::inner::Held::entered))]
fn entered(names: &mut [usize], p: usize, e: usize)
    ensures { names.new ≡ entered names.old p e }
{
    let s = counts(names);
    if s.visible < room(names) {
        enter(names, s.visible, p, e, s.next_cell, s.blocks);
    }
}

// The counts after one declaration more.
#[tactic(auto, unfolding(names::specs::inner::Held::declared_scope))]
fn with_one_more(s: Scope) -> Scope
    ensures { result ≡ declared_scope s }
{
    Scope {
        visible: one_more(s.visible),
        declared: one_more(s.declared),
        next_cell: one_more(s.next_cell),
        cells: one_more(s.cells),
        ..s
    }
}

// One declaration more, of the name from the place p up to e; or there are too many.
#[tactic(auto, unfolding(names::specs::inner::Held::declared_in))]
pub fn declare(names: &mut [usize], p: usize, e: usize) -> bool
    ensures value { result ≡ ltb (counts names.old).declared (room names.old) }
    ensures names_after { names.new ≡ declared_in names.old p e }
{
    let s = counts(names);
    if s.declared < room(names) {
        entered(names, p, e);
        put_counts(names, with_one_more(s));
        return true;
    }
    false
}

// ---- a scope's beginning and its end

// A brace opens one, and so does the body of an IF or a WHILE.
#[tactic(auto, unfolding(names::specs::inner::Held::opened_in, names::specs::inner::Held::opened_scope))]
pub fn open(names: &mut [usize])
    ensures { names.new ≡ opened_in names.old }
{
    let s = counts(names);
    let blocks = one_more(s.blocks);
    put_counts(names, Scope { blocks, ..s });
}

// What it declared vanishes, where `before` was counted before it was opened.
#[tactic(auto, unfolding(names::specs::inner::Held::closed_in, names::specs::inner::Held::closed_scope))]
pub fn close(names: &mut [usize], before: Scope)
    ensures { names.new ≡ closed_in names.old before }
{
    let s = counts(names);
    let t = Scope {
        visible: before.visible,
        blocks: before.blocks,
        ..s
    };
    put_counts(names, t);
}
