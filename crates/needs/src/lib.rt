// What the rules ask of the pairs of a row, entry by entry: the least dip and the least end that the rows which follow allow. Row p is that of address l, q of l+1, h the target's or handler's; each is given by where it begins.
#![tactic(auto)]

ghost use Rattle.std.specs.Prelude.{◌≡◌};
ghost use Rattle.bundle.specs.Program.{program_of};
ghost use Rattle.entries.specs.Fits.{want_entered, want_exited, want_both};
ghost use Rattle.entries.specs.Words.{entry_from};
ghost use Rattle.rows.specs.Rows.{row_in, row_of};
ghost use Rattle.needs.specs.Needs.{asked, fitting, gone, both, kept, kept_but, below, taken, thrown_var, thrown_top, throw_need, or_null, var_need, stack_need};

use bundle::Record;
use instructions::{Addr, Instruction};

// A dip and an end, the end as stored, with 64 added.
#[derive(Clone, Copy)]
pub struct Pair {
    pub dip: u16,
    pub end: u16,
}

fn gone() -> Pair
    ensures { result ≡ gone }
{
    Pair { dip: 0, end: 64 }
}

fn fitting(n: u8, w: u32) -> Pair
    ensures { result ≡ fitting (entry_from n w) }
{
    Pair {
        dip: entries::dip_of(n, w),
        end: entries::end_of(n, w),
    }
}

fn both(p: Pair, q: Pair) -> Pair
    ensures { result ≡ both p q }
{
    Pair {
        dip: p.dip.max(q.dip),
        end: p.end.max(q.end),
    }
}

// load: to w and to v.
fn split(n: u8, w: u32, v: u32) -> Pair
    ensures { result ≡ asked (want_both (entry_from n w) (entry_from n v)) }
{
    Pair {
        dip: entries::dip_of(n, w) + entries::dip_of(n, v),
        end: (entries::end_of(n, w) + entries::end_of(n, v)).saturating_sub(64),
    }
}

fn entered(n: u8, w: u32) -> Pair
    ensures { result ≡ asked (want_entered (entry_from n w)) }
{
    Pair {
        dip: entries::dip_of(n, w).saturating_sub(1),
        end: entries::end_of(n, w) + 1,
    }
}

fn exited(n: u8, w: u32) -> Pair
    ensures { result ≡ asked (want_exited (entry_from n w)) }
{
    Pair {
        dip: entries::dip_of(n, w) + 1,
        end: entries::end_of(n, w).saturating_sub(1),
    }
}

// Variable i of row q.
fn kept(m: &Record, q: u32, i: u8) -> Pair
    ensures { result ≡ kept (row_in m.now q) i }
{
    fitting(m.classes, rows::variable_word(m, q, i))
}

// The stack entry j of row q.
fn stacked(m: &Record, q: u32, j: u8) -> Pair
    ensures { result ≡ fitting ((row_in m.now q).stack j) }
{
    fitting(m.classes, rows::stack_word(m, q, j))
}

// .. below its top. Past the limit no entry stands.
fn pushed_need(m: &Record, q: u32, j: u8) -> Pair
    ensures { result ≡ fitting (below (row_in m.now q) j) }
{
    if j < m.class.limit {
        return stacked(m, q, j + 1);
    }
    gone()
}

// The top goes, and another comes in its stead.
fn replaced_need(m: &Record, q: u32, j: u8) -> Pair
    ensures { result ≡ taken gone 1 (below (row_in m.now q)) j }
{
    if j == 0 {
        return gone();
    }
    stacked(m, q, j)
}

// a entries go, of which p is asked.
fn taken(m: &Record, p: Pair, a: u16, q: u32, j: u8) -> Pair
    ensures { result ≡ taken p a (row_in m.now q).stack j }
{
    if (j as u16) < a {
        return p;
    }
    stacked(m, q, j - a as u8)
}

fn thrown_var(m: &Record, handler: u16, h: u32, i: u8) -> Pair
    ensures { result ≡ thrown_var handler (row_in m.now h) i }
{
    if handler == 0 {
        return gone();
    }
    kept(m, h, i)
}

fn thrown_top(m: &Record, handler: u16, h: u32) -> Pair
    ensures { result ≡ thrown_top handler (row_in m.now h) }
{
    if handler == 0 {
        return gone();
    }
    stacked(m, h, 0)
}

// Where w may be null, p is asked besides.
fn or_null(n: u8, w: u32, p: Pair, q: Pair) -> Pair
    ensures { result ≡ or_null (entry_from n w) p q }
{
    if entries::is_nullable(n, w) {
        return both(p, q);
    }
    q
}

// Of the variable v p is asked.
fn kept_but(m: &Record, v: u8, p: Pair, q: u32, i: u8) -> Pair
    ensures { result ≡ kept_but v p (row_in m.now q) i }
{
    if i == v {
        return p;
    }
    kept(m, q, i)
}

// What the instruction x at address l asks of variable i in row l.
pub fn var_need(m: &Record, l: Addr, x: Instruction, i: u8) -> Pair
    ensures { result ≡ var_need (row_of m.now) l.0 x i }
{
    let p = rows::row_start(m.class, l);
    let q = rows::next_start(m.class, l);
    match x {
        Instruction::Inc => kept(m, q, i),
        Instruction::Pop => kept(m, q, i),
        Instruction::Push0 => kept(m, q, i),
        Instruction::Load(v) => {
            let s = split(
                m.classes,
                rows::variable_word(m, q, v.0),
                rows::stack_word(m, q, 0),
            );
            kept_but(m, v.0, s, q, i)
        }
        Instruction::Store(v) => kept_but(m, v.0, gone(), q, i),
        Instruction::If(a) => both(kept(m, q, i), kept(m, rows::row_start(m.class, a), i)),
        Instruction::Enter(v, h) => {
            let e = entered(m.classes, rows::variable_word(m, q, v.0));
            or_null(
                m.classes,
                rows::variable_word(m, p, v.0),
                thrown_var(m, h.0, rows::row_start(m.class, h), i),
                kept_but(m, v.0, e, q, i),
            )
        }
        Instruction::Exit(v) => {
            let e = exited(m.classes, rows::variable_word(m, q, v.0));
            kept_but(m, v.0, e, q, i)
        }
        Instruction::New(_, h) => both(
            thrown_var(m, h.0, rows::row_start(m.class, h), i),
            kept(m, q, i),
        ),
        Instruction::Start(_) => kept(m, q, i),
        Instruction::Throw(h) => thrown_var(m, h.0, rows::row_start(m.class, h), i),
        Instruction::Return => gone(),
        Instruction::Get(_, _, h) => or_null(
            m.classes,
            rows::stack_word(m, p, 0),
            thrown_var(m, h.0, rows::row_start(m.class, h), i),
            kept(m, q, i),
        ),
        Instruction::Put(_, _, h) => or_null(
            m.classes,
            rows::stack_word(m, p, 1),
            thrown_var(m, h.0, rows::row_start(m.class, h), i),
            kept(m, q, i),
        ),
        Instruction::Nothing => gone(),
    }
}

fn throw_need(m: &Record, handler: u16, h: u32, j: u8) -> Pair
    ensures { result ≡ throw_need handler (row_in m.now h) j }
{
    if j == 0 {
        return thrown_top(m, handler, h);
    }
    gone()
}

// .. and of its stack entry j. The bundle is asked only for the class that a start names.
pub fn stack_need(b: &[u8], m: &Record, l: Addr, x: Instruction, j: u8) -> Pair
    ensures { result ≡ stack_need (program_of b.now) (row_of m.now) l.0 x j }
{
    let p = rows::row_start(m.class, l);
    let q = rows::next_start(m.class, l);
    match x {
        Instruction::Inc => replaced_need(m, q, j),
        Instruction::Pop => taken(m, gone(), 1, q, j),
        Instruction::Push0 => pushed_need(m, q, j),
        Instruction::Load(_) => pushed_need(m, q, j),
        Instruction::Store(v) => taken(m, kept(m, q, v.0), 1, q, j),
        Instruction::If(a) => both(
            taken(m, gone(), 1, q, j),
            taken(m, gone(), 1, rows::row_start(m.class, a), j),
        ),
        Instruction::Enter(v, _) => or_null(
            m.classes,
            rows::variable_word(m, p, v.0),
            gone(),
            stacked(m, q, j),
        ),
        Instruction::Exit(_) => stacked(m, q, j),
        Instruction::New(_, _) => both(gone(), pushed_need(m, q, j)),
        Instruction::Start(c) => taken(m, gone(), bundle::class_at(b, c).args as u16 + 1, q, j),
        Instruction::Throw(h) => throw_need(m, h.0, rows::row_start(m.class, h), j),
        Instruction::Return => gone(),
        Instruction::Get(_, _, _) => or_null(
            m.classes,
            rows::stack_word(m, p, 0),
            gone(),
            replaced_need(m, q, j),
        ),
        Instruction::Put(_, _, _) => or_null(
            m.classes,
            rows::stack_word(m, p, 1),
            gone(),
            taken(m, gone(), 2, q, j),
        ),
        Instruction::Nothing => gone(),
    }
}
