// The rules of document 01, instruction by instruction: what each asks, and its edges. Rows p (of address l), q (of l+1), and the target's or handler's are given by where they begin.
#![tactic(auto)]

ghost use Rattle.std.specs.Prelude.{◌≡◌, ◌&&◌, true, cond, ◌+◌, eqb};
ghost use Rattle.ground.specs.Bytes.{at};
ghost use Rattle.bundle.specs.Container.{exception};
ghost use Rattle.bundle.specs.Program.{program_of};
ghost use Rattle.entries.specs.Shorts.{short_in};
ghost use Rattle.entries.specs.Words.{entry_from};
ghost use Rattle.instructions.specs.Table.{decoded};
ghost use Rattle.rows.specs.Rows.{row_start, row_in, row_of};
ghost use Rattle.matching.specs.Matching.{emptied, wants, edge, then_short, edge_short, vars_go};
ghost use Rattle.rules.specs.Rule.{met, asked, ruling, ruling_in, all_meet, short_along};
ghost use Rattle.rules.specs.Rules.{inc_rule, pop_rule, push0_rule, load_rule, store_rule, if_rule, exit_rule, failure_goes, failure_thrown, new_rule, null_goes, null_thrown, enter_rule, owner_goes, get_rule, put_rule, throw_rule, argument_goes, object_goes, arguments_go, start_rule, return_rule, rule_of};

use bundle::Record;
use entries::Short;
use instructions::{Addr, Code, Instruction};
use verdicts::Why;

// A throw: the class of what is thrown, the handler that it goes to (0 is none), and where the handler's row begins.
#[derive(Clone, Copy)]
struct Catch {
    exception: u8,
    handler: Addr,
    row: u32,
}

// What a rule asks is there, or not.
fn asked(met: bool) -> Result<(), Why>
    ensures { result ≡ asked met }
{
    if met { Ok(()) } else { Err(Why::Unmet) }
}

fn inc_met(m: &Record, p: u32, q: u32) -> bool
    ensures { result ≡ met (inc_rule (row_in m.now p) (row_in m.now q)) }
{
    let d = matching::depth_of(m, p);
    (1 <= d)
        & entries::is_int(m.classes, rows::stack_word(m, p, 0))
        & (d == matching::depth_of(m, q))
}

fn inc_rule(m: &Record, p: u32, q: u32) -> Result<(), Why>
    ensures { ruling_in result ≡ ruling m.now.class.vars (inc_rule (row_in m.now p) (row_in m.now q)) }
{
    asked(inc_met(m, p, q))?;
    matching::counted_edge(m, p, q)?;
    Ok(())
}

fn pop_met(m: &Record, p: u32, q: u32) -> bool
    ensures { result ≡ met (pop_rule (row_in m.now p) (row_in m.now q)) }
{
    entries::may_go(m.classes, rows::stack_word(m, p, 0))
        & (matching::depth_of(m, p) == matching::depth_of(m, q) + 1)
}

fn pop_rule(m: &Record, p: u32, q: u32) -> Result<(), Why>
    ensures { ruling_in result ≡ ruling m.now.class.vars (pop_rule (row_in m.now p) (row_in m.now q)) }
{
    asked(pop_met(m, p, q))?;
    matching::popped_edge(m, 1, p, q)?;
    Ok(())
}

fn push0_met(m: &Record, p: u32, q: u32) -> bool
    ensures { result ≡ met (push0_rule (row_in m.now p) (row_in m.now q)) }
{
    matching::depth_of(m, p) + 1 == matching::depth_of(m, q)
}

fn push0_rule(m: &Record, p: u32, q: u32) -> Result<(), Why>
    ensures { ruling_in result ≡ ruling m.now.class.vars (push0_rule (row_in m.now p) (row_in m.now q)) }
{
    asked(push0_met(m, p, q))?;
    matching::int_edge(m, p, q)?;
    Ok(())
}

fn load_met(m: &Record, v: u8, p: u32, q: u32) -> bool
    ensures { result ≡ met (load_rule v (row_in m.now p) (row_in m.now q)) }
{
    matching::depth_of(m, p) + 1 == matching::depth_of(m, q)
}

fn load_rule(m: &Record, v: u8, p: u32, q: u32) -> Result<(), Why>
    ensures { ruling_in result ≡ ruling m.now.class.vars (load_rule v (row_in m.now p) (row_in m.now q)) }
{
    asked(load_met(m, v, p, q))?;
    matching::loaded_edge(m, v, p, q)?;
    Ok(())
}

fn store_met(m: &Record, v: u8, p: u32, q: u32) -> bool
    ensures { result ≡ met (store_rule v (row_in m.now p) (row_in m.now q)) }
{
    entries::may_go(m.classes, rows::variable_word(m, p, v))
        & (matching::depth_of(m, p) == matching::depth_of(m, q) + 1)
}

fn store_rule(m: &Record, v: u8, p: u32, q: u32) -> Result<(), Why>
    ensures { ruling_in result ≡ ruling m.now.class.vars (store_rule v (row_in m.now p) (row_in m.now q)) }
{
    asked(store_met(m, v, p, q))?;
    matching::stored_edge(m, v, p, q)?;
    Ok(())
}

fn if_met(m: &Record, p: u32, q: u32, h: u32) -> bool
    ensures { result ≡ met (if_rule (row_in m.now p) (row_in m.now q) (row_in m.now h)) }
{
    let d = matching::depth_of(m, p);
    entries::is_int(m.classes, rows::stack_word(m, p, 0))
        & ((d == matching::depth_of(m, q) + 1) & (d == matching::depth_of(m, h) + 1))
}

fn if_rule(m: &Record, p: u32, q: u32, h: u32) -> Result<(), Why>
    ensures { ruling_in result ≡ ruling m.now.class.vars (if_rule (row_in m.now p) (row_in m.now q) (row_in m.now h)) }
{
    asked(if_met(m, p, q, h))?;
    matching::popped_edge(m, 1, p, q)?;
    matching::popped_edge(m, 1, p, h)?;
    Ok(())
}

fn exit_met(m: &Record, v: u8, p: u32, q: u32) -> bool
    ensures { result ≡ met (exit_rule v (row_in m.now p) (row_in m.now q)) }
{
    entries::is_reference(m.classes, rows::variable_word(m, p, v))
        & (matching::depth_of(m, p) == matching::depth_of(m, q))
}

fn exit_rule(m: &Record, v: u8, p: u32, q: u32) -> Result<(), Why>
    ensures { ruling_in result ≡ ruling m.now.class.vars (exit_rule v (row_in m.now p) (row_in m.now q)) }
{
    asked(exit_met(m, v, p, q))?;
    matching::exited_edge(m, v, p, q)?;
    Ok(())
}

// What a throw asks besides the stack; `goes` is whether what is thrown may go.
fn throw_met(m: &Record, x: Catch, goes: bool, p: u32) -> bool
    ensures { result ≡ cond (eqb x.handler.0 0) (goes && vars_go m.now.class.vars (row_in m.now p)) (eqb 1 (row_in m.now x.row).depth) }
{
    if x.handler.0 == 0 {
        return goes & matching::vars_go(m, p);
    }
    1 == matching::depth_of(m, x.row)
}

// The comparison of what is thrown with the handler's only entry gave t.
fn thrown_short(m: &Record, x: Catch, t: Result<(), Short>, p: u32) -> Result<(), Short>
    ensures { short_in result ≡ cond (eqb x.handler.0 0) 0 (then_short (edge_short m.now.class.vars (edge (emptied (row_in m.now p)) (wants (row_in m.now x.row)))) (short_in t)) }
{
    if x.handler.0 == 0 {
        return Ok(());
    }
    matching::emptied_edge(m, p, x.row)?;
    t
}

fn throw_rule(m: &Record, x: Catch, p: u32) -> Result<(), Why>
    ensures { ruling_in result ≡ ruling m.now.class.vars (throw_rule m.now.class.vars x.exception x.handler.0 (row_in m.now p) (row_in m.now x.row)) }
{
    let top = rows::stack_word(m, p, 0);
    asked(
        (1 <= matching::depth_of(m, p))
            & entries::is_of(m.classes, x.exception, top)
            & matching::rest_goes(m, p)
            & throw_met(m, x, entries::may_go(m.classes, top), p),
    )?;
    let t = matching::word_short(m.classes, top, rows::stack_word(m, x.row, 0));
    thrown_short(m, x, t, p)?;
    Ok(())
}

// A failed new: what it asks of row p and of the handler's. It throws the exception class with (0,0), which may go.
fn failure_met(m: &Record, x: Catch, p: u32) -> bool
    ensures { result ≡ (failure_goes m.now.class.vars x.exception x.handler.0 (row_in m.now p) && all_meet (failure_thrown x.exception x.handler.0 (row_in m.now p) (row_in m.now x.row))) }
{
    matching::stack_goes(m, p) & throw_met(m, x, true, p)
}

// .. and its comparisons with the handler's row.
fn failure_short(m: &Record, x: Catch, p: u32) -> Result<(), Short>
    ensures { short_in result ≡ short_along m.now.class.vars (failure_thrown x.exception x.handler.0 (row_in m.now p) (row_in m.now x.row)) }
{
    let t = entries::compare_made(m.classes, x.exception, rows::stack_word(m, x.row, 0));
    thrown_short(m, x, t, p)
}

fn new_rule(m: &Record, x: Catch, c: u8, p: u32, q: u32) -> Result<(), Why>
    ensures { ruling_in result ≡ ruling m.now.class.vars (new_rule m.now.class.vars x.exception c x.handler.0 (row_in m.now p) (row_in m.now q) (row_in m.now x.row)) }
{
    asked(failure_met(m, x, p) & (matching::depth_of(m, p) + 1 == matching::depth_of(m, q)))?;
    matching::made_edge(m, c, p, q)?;
    failure_short(m, x, p)?;
    Ok(())
}

// A reference that can't be null throws nothing, and then no throw is looked at.
fn enter_rule(m: &Record, x: Catch, v: u8, p: u32, q: u32) -> Result<(), Why>
    ensures { ruling_in result ≡ ruling m.now.class.vars (enter_rule m.now.class.vars x.exception v x.handler.0 (row_in m.now p) (row_in m.now q) (row_in m.now x.row)) }
{
    let w = rows::variable_word(m, p, v);
    let level = matching::depth_of(m, p) == matching::depth_of(m, q);
    if entries::is_reference(m.classes, w) {
        asked(level)?;
        matching::entered_edge(m, v, p, q)?;
        return Ok(());
    }
    asked(entries::is_nullable(m.classes, w) & failure_met(m, x, p) & level)?;
    matching::made_entered_edge(m, entries::class_of(m.classes, w), v, p, q)?;
    failure_short(m, x, p)?;
    Ok(())
}

// What null asks, where w, the owner of a field, may be null.
fn null_met(m: &Record, x: Catch, w: u32, p: u32) -> bool
    ensures { result ≡ (null_goes m.now.class.vars x.exception x.handler.0 (entry_from m.now.classes w) (row_in m.now p) && all_meet (null_thrown x.exception x.handler.0 (entry_from m.now.classes w) (row_in m.now p) (row_in m.now x.row))) }
{
    if !entries::is_nullable(m.classes, w) {
        return true;
    }
    failure_met(m, x, p)
}

fn null_short(m: &Record, x: Catch, w: u32, p: u32) -> Result<(), Short>
    ensures { short_in result ≡ short_along m.now.class.vars (null_thrown x.exception x.handler.0 (entry_from m.now.classes w) (row_in m.now p) (row_in m.now x.row)) }
{
    if !entries::is_nullable(m.classes, w) {
        return Ok(());
    }
    failure_short(m, x, p)
}

fn owner_goes(n: u8, c: u8, w: u32) -> bool
    ensures { result ≡ owner_goes c (entry_from n w) }
{
    entries::may_be_of(n, c, w) & entries::may_go(n, w)
}

// c is the owner's class, d the field's descriptor.
fn get_rule(m: &Record, x: Catch, c: u8, d: u8, p: u32, q: u32) -> Result<(), Why>
    ensures { ruling_in result ≡ ruling m.now.class.vars (get_rule m.now.class.vars x.exception c d x.handler.0 (row_in m.now p) (row_in m.now q) (row_in m.now x.row)) }
{
    let owner = rows::stack_word(m, p, 0);
    asked(
        (1 <= matching::depth_of(m, p))
            & owner_goes(m.classes, c, owner)
            & null_met(m, x, owner, p)
            & (matching::depth_left(m, 1, p) + 1 == matching::depth_of(m, q)),
    )?;
    matching::field_edge(m, d, p, q)?;
    null_short(m, x, owner, p)?;
    Ok(())
}

fn put_rule(m: &Record, x: Catch, c: u8, d: u8, p: u32, q: u32) -> Result<(), Why>
    ensures { ruling_in result ≡ ruling m.now.class.vars (put_rule m.now.class.vars x.exception c d x.handler.0 (row_in m.now p) (row_in m.now q) (row_in m.now x.row)) }
{
    let value = rows::stack_word(m, p, 0);
    let owner = rows::stack_word(m, p, 1);
    asked(
        (2 <= matching::depth_of(m, p))
            & (entries::matches_field(m.classes, d, value) & entries::may_go(m.classes, value))
            & owner_goes(m.classes, c, owner)
            & null_met(m, x, owner, p)
            & (matching::depth_left(m, 2, p) == matching::depth_of(m, q)),
    )?;
    matching::popped_edge(m, 2, p, q)?;
    null_short(m, x, owner, p)?;
    Ok(())
}

// s is the record of the class that is started: its descriptors come first.
fn argument_goes(m: &Record, s: &[u8], p: u32, j: u8) -> bool
    ensures { result ≡ argument_goes (at s.now) (row_in m.now p) j }
{
    let w = rows::stack_word(m, p, j);
    if !entries::matches(m.classes, ground::byte(s, j as usize), w) {
        return false;
    }
    entries::may_go(m.classes, w)
}

fn arguments_go(m: &Record, s: &[u8], args: u8, p: u32) -> bool
    ensures { result ≡ arguments_go args (at s.now) (row_in m.now p) }
{
    for j in 0..args {
        if !argument_goes(m, s, p, j) {
            return false;
        }
    }
    true
}

fn object_goes(m: &Record, c: u8, p: u32, j: u8) -> bool
    ensures { result ≡ object_goes c (row_in m.now p) j }
{
    let w = rows::stack_word(m, p, j);
    if !entries::is_of(m.classes, c, w) {
        return false;
    }
    entries::may_go(m.classes, w)
}

// A depth is a byte, so that args + 1 is one, too, where a stack holds so many.
fn start_rule(m: &Record, s: &[u8], args: u8, c: u8, p: u32, q: u32) -> Result<(), Why>
    ensures { ruling_in result ≡ ruling m.now.class.vars (start_rule args (at s.now) c (row_in m.now p) (row_in m.now q)) }
{
    if matching::depth_of(m, p) <= args as u16 {
        return Err(Why::Unmet);
    }
    asked(
        arguments_go(m, s, args, p)
            & object_goes(m, c, p, args)
            & (matching::depth_left(m, args + 1, p) == matching::depth_of(m, q)),
    )?;
    matching::popped_edge(m, args + 1, p, q)?;
    Ok(())
}

fn return_rule(m: &Record, p: u32) -> Result<(), Why>
    ensures { ruling_in result ≡ ruling m.now.class.vars (return_rule m.now.class.vars (row_in m.now p)) }
{
    asked(matching::stack_goes(m, p) & matching::vars_go(m, p))
}

fn start_of(b: &[u8], m: &Record, c: u8, p: u32, q: u32) -> Result<(), Why>
    ensures { ruling_in result ≡ ruling m.now.class.vars (start_rule ((program_of b.now).method c).args ((program_of b.now).method c).descriptor c (row_in m.now p) (row_in m.now q)) }
{
    let started = bundle::record_at(b, c);
    start_rule(m, started.bytes, started.class.args, c, p, q)
}

// The descriptor of field f of class c.
fn descriptor_of(b: &[u8], c: u8, f: u8) -> u8
    ensures { result ≡ ((program_of b.now).method c).field f }
{
    bundle::record_at(b, c).field_at(f)
}

fn catch_of(b: &[u8], m: &Record, h: Addr) -> Catch
    ensures exception { result.exception ≡ exception b.now }
    ensures handler { result.handler ≡ h }
    ensures row { result.row ≡ row_start m.now.class h.0 }
{
    Catch {
        exception: bundle::exception(b),
        handler: h,
        row: rows::row_start(m.class, h),
    }
}

// The ruling of the instruction x at address l of the method whose record is m. The bundle is asked only for the class that a start or a field instruction names, and for the exception class.
#[tactic(auto, unfolding(bundle::specs::Program::program_of, ground::specs::Chain::refuse, crate::specs::Rule::ruling, crate::specs::Rule::met))]
pub fn rule_of(b: &[u8], m: &Record, l: Addr, x: Code) -> Result<(), Why>
    ensures { ruling_in result ≡ ruling m.now.class.vars (rule_of (program_of b.now) m.now.class.vars (row_of m.now) l.0 (decoded x)) }
{
    let p = rows::row_start(m.class, l);
    let q = rows::next_start(m.class, l);
    match instructions::instruction_of(x) {
        Instruction::Inc => inc_rule(m, p, q),
        Instruction::Pop => pop_rule(m, p, q),
        Instruction::Push0 => push0_rule(m, p, q),
        Instruction::Load(v) => load_rule(m, v.0, p, q),
        Instruction::Store(v) => store_rule(m, v.0, p, q),
        Instruction::If(a) => if_rule(m, p, q, rows::row_start(m.class, a)),
        Instruction::Enter(v, h) => enter_rule(m, catch_of(b, m, h), v.0, p, q),
        Instruction::Exit(v) => exit_rule(m, v.0, p, q),
        Instruction::New(c, h) => new_rule(m, catch_of(b, m, h), c, p, q),
        Instruction::Start(c) => start_of(b, m, c, p, q),
        Instruction::Throw(h) => throw_rule(m, catch_of(b, m, h), p),
        Instruction::Return => return_rule(m, p),
        Instruction::Get(c, f, h) => {
            let d = descriptor_of(b, c, f);
            get_rule(m, catch_of(b, m, h), c, d, p, q)
        }
        Instruction::Put(c, f, h) => {
            let d = descriptor_of(b, c, f);
            put_rule(m, catch_of(b, m, h), c, d, p, q)
        }
        Instruction::Nothing => Err(Why::Unmet),
    }
}
