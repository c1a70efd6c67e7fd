// Whether a bundle's pairs can be worked out at all: refusals 1 to 8, pair bytes aside, and 23, bytes in common.
#![tactic(auto)]

ghost use Rattle.std.specs.Prelude.{◌≡◌, ℕ, ◌<◌};
ghost use Rattle.ground.specs.Lists.{each};
ghost use Rattle.bundle.specs.Container.{classes};
ghost use Rattle.verifier.specs.Places.{form_places};
ghost use Rattle.rows.specs.Rows.{depth_at};
ghost use Rattle.forms.specs.Forms.{var_formed, entry_formed, vars_formed, stack_formed, row_formed};
ghost use Rattle.verdicts.specs.Numbers.{found, judgement};
ghost use Rattle.entries.specs.Words.{entry_from};
ghost use Rattle.shape.specs.Shape.{entry_aside, row_aside, shape_verdict};
ghost use Rattle.shape.specs.Apart.{apart, apart_from, lower_apart, directory_apart, class_apart, all_apart};
ghost use Rattle.shape.specs.Loops.{aside_word, searched, shaped_at, shaped_of};

use bundle::{Class, Record};
use instructions::Addr;
use verdicts::Refusal;

#[tactic(auto, using(ground::proofs::Tests::tests), unfolding(crate::specs::Loops::aside_word))]
fn aside(w: u32) -> u32
    ensures { result ≡ aside_word w }
{
    if w / 16777216 == 3 {
        return w / 65536 * 65536 + 1;
    }
    w
}

// The four bytes of an entry, which begins at s, pair bytes aside.
fn word_aside(r: &[u8], s: usize) -> u32
    ensures { (n : ℕ) → entry_from n result ≡ entry_aside n r.now s }
{
    aside(ground::quad(r, s))
}

#[tactic(auto, unfolding(crate::specs::Shape::variable_aside))]
fn var_shaped(m: &Record, p: u32, i: u8) -> bool
    ensures { result ≡ var_formed (row_aside m.now.classes m.now.class m.now.bytes.now p) i }
{
    let w = word_aside(m.bytes, p as usize + 4 * (i as usize));
    entries::is_type(m.classes, w)
}

#[tactic(auto, using(ground::proofs::Bounded::every), unfolding(forms::specs::Forms::vars_formed))]
fn vars_shaped(m: &Record, p: u32) -> bool
    ensures { result ≡ vars_formed m.now.class.vars (row_aside m.now.classes m.now.class m.now.bytes.now p) }
{
    for i in 0..m.class.vars {
        if !var_shaped(m, p, i) {
            return false;
        }
    }
    true
}

// d is the row's depth.
#[tactic(auto, using(ground::proofs::Tests::tests), unfolding(forms::specs::Forms::entry_formed, crate::specs::Shape::stack_aside, ground::specs::Chain::refuse))]
fn entry_shaped(m: &Record, p: u32, d: u8, j: u8) -> bool
    requires { (d ≡ depth_at m.now.bytes.now p m.now.class.vars) × (j < m.now.class.limit) }
    ensures { result ≡ entry_formed (row_aside m.now.classes m.now.class m.now.bytes.now p) j }
{
    let stack = p as usize + 4 * (m.class.vars as usize) + 1;
    let w = word_aside(m.bytes, stack + 4 * (j as usize));
    if j < d {
        return entries::is_type(m.classes, w);
    }
    entries::is_blank(m.classes, w)
}

#[tactic(auto, using(ground::proofs::Bounded::every), unfolding(forms::specs::Forms::stack_formed))]
fn stack_shaped(m: &Record, p: u32) -> bool
    ensures { result ≡ stack_formed m.now.class.limit (row_aside m.now.classes m.now.class m.now.bytes.now p) }
{
    let d = rows::depth_at(m, p);
    for j in 0..m.class.limit {
        if !entry_shaped(m, p, d, j) {
            return false;
        }
    }
    true
}

#[tactic(auto, using(ground::proofs::Tests::tests), unfolding(forms::specs::Forms::row_formed))]
fn row_shaped(m: &Record, p: u32) -> bool
    ensures { result ≡ row_formed m.now.class.vars m.now.class.limit (row_aside m.now.classes m.now.class m.now.bytes.now p) }
{
    if m.class.limit < rows::depth_at(m, p) {
        return false;
    }
    if !vars_shaped(m, p) {
        return false;
    }
    stack_shaped(m, p)
}

#[tactic(auto, unfolding(crate::specs::Loops::shaped_at, ground::specs::Chain::refuse))]
fn shaped_at(c: u8, m: &Record, i: u16) -> Result<(), Refusal>
    requires { i < 65535 }
    ensures { found result ≡ shaped_at m.now.classes c m.now.class m.now.bytes.now i }
{
    if !row_shaped(m, rows::row_start(m.class, Addr(i + 1))) {
        return Err(Refusal::Form(c, Addr(i + 1)));
    }
    Ok(())
}

#[tactic(auto, using(verdicts::proofs::Numbers::searching))]
fn shaped_of(c: u8, m: &Record) -> Result<(), Refusal>
    ensures { found result ≡ shaped_of m.now.classes c m.now.class m.now.bytes.now }
{
    for i in 0..m.class.code {
        shaped_at(c, m, i)?;
    }
    Ok(())
}

#[tactic(auto, using(crate::proofs::FirstBroken::searching))]
fn shaped_of_class(b: &[u8], c: u8) -> Result<(), Refusal>
    ensures { found result ≡ searched b.now (form_places b.now c) }
{
    shaped_of(c, &bundle::record_at(b, c))
}

#[tactic(auto, using(verdicts::proofs::Numbers::searching))]
fn shaped_of_all(b: &[u8]) -> Result<(), Refusal>
    ensures { found result ≡ searched b.now (each (classes b.now) (form_places b.now)) }
{
    for c in 0..bundle::classes(b) {
        shaped_of_class(b, c)?;
    }
    Ok(())
}

// 1 to 8, pair bytes aside.
#[tactic(auto, using(verdicts::proofs::Numbers::searching, crate::proofs::FirstBroken::searching))]
pub fn shape(b: &[u8]) -> Result<u8, Refusal>
    ensures { judgement result ≡ shape_verdict b.now }
{
    structure::structure(b)?;
    shaped_of_all(b)?;
    Ok(bundle::classes(b))
}

#[tactic(auto, unfolding(crate::specs::Apart::apart))]
fn apart(a: u16, m: usize, e: u16, n: usize) -> bool
    requires { (m < 268435456) × (n < 268435456) }
    ensures { result ≡ apart a m e n }
{
    (a as usize + m <= e as usize) | (e as usize + n <= a as usize)
}

#[tactic(auto, unfolding(crate::specs::Apart::apart_from))]
fn apart_from(b: &[u8], k: Class, d: u8) -> bool
    ensures { result ≡ apart_from b.now k d }
{
    let j = bundle::class_at(b, d);
    apart(k.offset, bundle::size(k), j.offset, bundle::size(j))
}

#[tactic(auto, using(ground::proofs::Bounded::every), unfolding(crate::specs::Apart::lower_apart))]
fn lower_apart(b: &[u8], k: Class, c: u8) -> bool
    ensures { result ≡ lower_apart b.now k c }
{
    for d in 0..c {
        if !apart_from(b, k, d) {
            return false;
        }
    }
    true
}

#[tactic(auto, unfolding(crate::specs::Apart::directory_apart))]
fn directory_apart(b: &[u8], k: Class) -> bool
    ensures { result ≡ directory_apart b.now k }
{
    apart(
        k.offset,
        bundle::size(k),
        bundle::directory_at(b),
        8 * (bundle::classes(b) as usize),
    )
}

#[tactic(auto, unfolding(crate::specs::Apart::class_apart))]
fn class_apart(b: &[u8], c: u8) -> bool
    ensures { result ≡ class_apart b.now c }
{
    let k = bundle::class_at(b, c);
    if !directory_apart(b, k) {
        return false;
    }
    lower_apart(b, k, c)
}

// 23: no record shares a byte with another or with the directory.
#[tactic(auto, using(ground::proofs::Bounded::every), unfolding(crate::specs::Apart::all_apart))]
pub fn all_apart(b: &[u8]) -> bool
    ensures { result ≡ all_apart b.now }
{
    for c in 0..bundle::classes(b) {
        if !class_apart(b, c) {
            return false;
        }
    }
    true
}
