// The verifier under a lock order by class (document 02, Q-10): the verdict of `verify`, and 25 where a monitorenter breaks the order of the levels.
#![tactic(auto)]

ghost use Rattle.std.specs.Prelude.{◌≡◌, ◌<◌};
ghost use Rattle.ground.specs.Lists.{each};
ghost use Rattle.instructions.specs.Table.{decoded};
ghost use Rattle.bundle.specs.Container.{classes};
ghost use Rattle.bundle.specs.Program.{program_of};
ghost use Rattle.entries.specs.Words.{entry_from};
ghost use Rattle.rows.specs.Rows.{row_in, row_of};
ghost use Rattle.verdicts.specs.Numbers.{found, judgement};
ghost use Rattle.order.specs.Order.{level_of, owes, above, other_above, others_above, entry_above, stack_above, enter_order, order_of};
ghost use Rattle.order.specs.Verdict.{ordered_verdict_of};
ghost use Rattle.order.specs.Loops.{searched, ordered_places, ordered_at, ordered_of};

use bundle::Record;
use instructions::{Addr, Code};
use verdicts::Refusal;

fn level_of(levels: &[u8], c: u8) -> u8
    ensures { result ≡ level_of levels.now c }
{
    ground::byte(levels, c as usize)
}

#[tactic(auto, using(crate::proofs::Order::owes_goes))]
fn owes(n: u8, w: u32) -> bool
    ensures { result ≡ owes (entry_from n w) }
{
    entries::is_reference(n, w) & !entries::may_go(n, w)
}

#[tactic(auto, using(ground::proofs::Tests::tests), unfolding(crate::specs::Order::above))]
fn above(levels: &[u8], n: u8, level: u8, w: u32) -> bool
    ensures { result ≡ above levels.now level (entry_from n w) }
{
    if !owes(n, w) {
        return true;
    }
    level < level_of(levels, entries::class_of(n, w))
}

#[tactic(auto, using(ground::proofs::Tests::tests))]
fn other_above(levels: &[u8], m: &Record, level: u8, v: u8, p: u32, i: u8) -> bool
    ensures { result ≡ other_above levels.now level v (row_in m.now p) i }
{
    if i == v {
        return true;
    }
    above(levels, m.classes, level, rows::variable_word(m, p, i))
}

#[tactic(auto, using(ground::proofs::Bounded::every), unfolding(crate::specs::Order::others_above))]
fn others_above(levels: &[u8], m: &Record, level: u8, v: u8, p: u32) -> bool
    ensures { result ≡ others_above levels.now level m.now.class.vars v (row_in m.now p) }
{
    for i in 0..m.class.vars {
        if !other_above(levels, m, level, v, p, i) {
            return false;
        }
    }
    true
}

fn entry_above(levels: &[u8], m: &Record, level: u8, p: u32, j: u8) -> bool
    ensures { result ≡ entry_above levels.now level (row_in m.now p) j }
{
    above(levels, m.classes, level, rows::stack_word(m, p, j))
}

#[tactic(auto, using(ground::proofs::Bounded::every), unfolding(crate::specs::Order::stack_above))]
fn stack_above(levels: &[u8], m: &Record, level: u8, p: u32) -> bool
    ensures { result ≡ stack_above levels.now level (row_in m.now p) }
{
    for j in 0..rows::depth_at(m, p) {
        if !entry_above(levels, m, level, p, j) {
            return false;
        }
    }
    true
}

// The row of the monitorenter begins at p.
#[tactic(auto, unfolding(crate::specs::Order::enter_order))]
fn enter_order(levels: &[u8], m: &Record, v: u8, p: u32) -> bool
    ensures { result ≡ enter_order levels.now m.now.class.vars v (row_in m.now p) }
{
    let level = level_of(
        levels,
        entries::class_of(m.classes, rows::variable_word(m, p, v)),
    );
    if !others_above(levels, m, level, v, p) {
        return false;
    }
    stack_above(levels, m, level, p)
}

fn order_of(levels: &[u8], m: &Record, l: Addr, x: Code) -> bool
    ensures { result ≡ order_of levels.now m.now.class.vars (row_of m.now l.0) (decoded x) }
{
    if x.opcode != 7 {
        return true;
    }
    enter_order(levels, m, x.operand, rows::row_start(m.class, l))
}

fn ordered_at(b: &[u8], levels: &[u8], c: u8, m: &Record, i: u16) -> Result<(), Refusal>
    requires { i < 65535 }
    ensures { found result ≡ ordered_at (program_of b.now) levels.now m.now.classes c m.now.class m.now.bytes.now i }
{
    let l = Addr(i + 1);
    let x = m.code_at(l);
    if let Err(why) = rules::rule_of(b, m, l, x) {
        return Err(Refusal::Rule(c, l, why));
    }
    if !order_of(levels, m, l, x) {
        return Err(Refusal::Order(c, Addr(i + 1)));
    }
    Ok(())
}

#[tactic(auto, using(verdicts::proofs::Numbers::searching), unfolding(crate::specs::Loops::ordered_of, ground::specs::Chain::refuse))]
fn ordered_of(b: &[u8], levels: &[u8], c: u8, m: &Record) -> Result<(), Refusal>
    ensures { found result ≡ ordered_of (program_of b.now) levels.now m.now.classes c m.now.class m.now.bytes.now }
{
    if !forms::first_row(m) {
        return Err(Refusal::FirstRow(c));
    }
    for i in 0..m.class.code {
        ordered_at(b, levels, c, m, i)?;
    }
    Ok(())
}

#[tactic(auto, using(crate::proofs::FirstBroken::searching))]
fn ordered_of_class(b: &[u8], levels: &[u8], c: u8) -> Result<(), Refusal>
    ensures { found result ≡ searched b.now levels.now (ordered_places b.now c) }
{
    ordered_of(b, levels, c, &bundle::record_at(b, c))
}

#[tactic(auto, using(verdicts::proofs::Numbers::searching))]
fn ordered_of_all(b: &[u8], levels: &[u8]) -> Result<(), Refusal>
    ensures { found result ≡ searched b.now levels.now (each (classes b.now) (ordered_places b.now)) }
{
    for c in 0..bundle::classes(b) {
        ordered_of_class(b, levels, c)?;
    }
    Ok(())
}

// The verdict on a bundle under the lock order that the levels give: levels has eight bytes, byte c is class c's level; any other length is 26, before all else. Neither is written.
#[tactic(auto, using(verdicts::proofs::Numbers::searching, crate::proofs::FirstBroken::searching), unfolding(ground::specs::Chain::refuse))]
pub fn verify_ordered(b: &[u8], levels: &[u8]) -> Result<u8, Refusal>
    ensures { judgement result ≡ ordered_verdict_of b.now levels.now }
{
    if levels.len() != 8 {
        return Err(Refusal::Levels);
    }
    structure::structure(b)?;
    verifier::forms_of_all(b)?;
    ordered_of_all(b, levels)?;
    Ok(bundle::classes(b))
}
