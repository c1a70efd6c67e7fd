// Two rows of one record held against each other, each given by where it begins: the comparisons along an edge, in their order; and may go.
#![tactic(auto)]

ghost use Rattle.std.specs.Prelude.{◌≡◌, true, ◌+◌, ◌-◌, ◌≤◌};
ghost use Rattle.entries.specs.Entries.{Int, Ref, no_end, field_entry};
ghost use Rattle.entries.specs.Fits.{compare, want, want_entered, want_exited};
ghost use Rattle.entries.specs.Shorts.{short_in};
ghost use Rattle.entries.specs.Words.{entry_from};
ghost use Rattle.rows.specs.Rows.{depth_at, row_in};
ghost use Rattle.matching.specs.Matching.{popped, pushed, stored, emptied, wants, wants_at, wants_loaded, edge, edge_short, var_goes, vars_go, entry_goes, stack_goes};
ghost use Rattle.matching.specs.Passes.{var_short, other_short, rest_short, vars_pass, others_pass, rest_pass, pass, pass_but};

use bundle::Record;
use entries::Short;

// The depth of the row that begins at p.
pub fn depth_of(m: &Record, p: u32) -> u16
    ensures { (result ≡ depth_at m.now.bytes.now p m.now.class.vars) × (result ≤ 255) }
{
    rows::depth_at(m, p) as u16
}

// .. and what is left of it when a entries have gone.
pub fn depth_left(m: &Record, a: u8, p: u32) -> u16
    ensures { (result ≡ depth_at m.now.bytes.now p m.now.class.vars - a) × (result ≤ 255) }
{
    depth_of(m, p).saturating_sub(a as u16)
}

// Most entries stay as they are: equal bytes fit, and only others are taken apart.
pub fn word_short(n: u8, w: u32, v: u32) -> Result<(), Short>
    ensures { short_in result ≡ compare (entry_from n w) (want (entry_from n v)) }
{
    if w == v {
        return Ok(());
    }
    entries::compare(n, w, v)
}

fn var_short(m: &Record, p: u32, q: u32, i: u8) -> Result<(), Short>
    ensures { short_in result ≡ var_short (row_in m.now p) (row_in m.now q) i }
{
    entries::compare(
        m.classes,
        rows::variable_word(m, p, i),
        rows::variable_word(m, q, i),
    )
}

// Most variables stay as they are: equal bytes fit, and the loops take only others apart.
fn var_kept(m: &Record, p: u32, q: u32, i: u8) -> bool
    ensures { result ≡ true → 0 ≡ var_short (row_in m.now p) (row_in m.now q) i }
{
    rows::variable_word(m, p, i) == rows::variable_word(m, q, i)
}

fn vars_search(m: &Record, p: u32, q: u32) -> Result<(), Short>
    ensures { short_in result ≡ vars_pass m.now.class.vars (row_in m.now p) (row_in m.now q) }
{
    for i in 0..m.class.vars {
        if !var_kept(m, p, q, i) {
            var_short(m, p, q, i)?;
        }
    }
    Ok(())
}

// Most often all variables stay, and then nothing is searched.
fn vars_pass(m: &Record, p: u32, q: u32) -> Result<(), Short>
    ensures { short_in result ≡ vars_pass m.now.class.vars (row_in m.now p) (row_in m.now q) }
{
    if rows::vars_same(m, p, q) {
        return Ok(());
    }
    vars_search(m, p, q)
}

// The comparison at v gave w.
fn other_short(m: &Record, v: u8, w: Result<(), Short>, p: u32, q: u32, i: u8) -> Result<(), Short>
    ensures { short_in result ≡ other_short v (short_in w) (row_in m.now p) (row_in m.now q) i }
{
    if i == v {
        return w;
    }
    var_short(m, p, q, i)
}

fn others_search(m: &Record, v: u8, w: Result<(), Short>, p: u32, q: u32) -> Result<(), Short>
    ensures { short_in result ≡ others_pass m.now.class.vars v (short_in w) (row_in m.now p) (row_in m.now q) }
{
    for i in 0..m.class.vars {
        if (i == v) | !var_kept(m, p, q, i) {
            other_short(m, v, w, p, q, i)?;
        }
    }
    Ok(())
}

// Most often all variables but v stay.
fn others_pass(m: &Record, v: u8, w: Result<(), Short>, p: u32, q: u32) -> Result<(), Short>
    ensures { short_in result ≡ others_pass m.now.class.vars v (short_in w) (row_in m.now p) (row_in m.now q) }
{
    if w.is_ok() & rows::others_same(m, p, q, v) {
        return Ok(());
    }
    others_search(m, v, w, p, q)
}

fn rest_short(m: &Record, a: u8, b: u8, p: u32, q: u32, j: u8) -> Result<(), Short>
    requires { (a + j ≤ 255) × (b + j ≤ 255) }
    ensures { short_in result ≡ rest_short a b (row_in m.now p) (row_in m.now q) j }
{
    word_short(
        m.classes,
        rows::stack_word(m, p, a + j),
        rows::stack_word(m, q, b + j),
    )
}

fn rest_pass(m: &Record, a: u8, b: u8, p: u32, q: u32) -> Result<(), Short>
    requires { b ≤ 1 }
    ensures { short_in result ≡ rest_pass a b (row_in m.now p) (row_in m.now q) }
{
    for j in 0..rows::depth_at(m, p).saturating_sub(a) {
        rest_short(m, a, b, p, q, j)?;
    }
    Ok(())
}

// The comparison at the new top gave t. Most often nothing is left below, and then nothing is called.
fn pass(m: &Record, a: u8, b: u8, t: Result<(), Short>, p: u32, q: u32) -> Result<(), Short>
    requires { b ≤ 1 }
    ensures { short_in result ≡ pass m.now.class.vars a b (short_in t) (row_in m.now p) (row_in m.now q) }
{
    vars_pass(m, p, q)?;
    t?;
    if depth_left(m, a, p) == 0 {
        return Ok(());
    }
    rest_pass(m, a, b, p, q)
}

// .. with the comparison at v, s; as many parameters as `pass_but` of the definitions has.
fn pass_but(
    m: &Record,
    v: u8,
    s: Result<(), Short>,
    a: u8,
    b: u8,
    t: Result<(), Short>,
    p: u32,
    q: u32,
) -> Result<(), Short>
    requires { b ≤ 1 }
    ensures { short_in result ≡ pass_but m.now.class.vars v (short_in s) a b (short_in t) (row_in m.now p) (row_in m.now q) }
{
    others_pass(m, v, s, p, q)?;
    t?;
    if depth_left(m, a, p) == 0 {
        return Ok(());
    }
    rest_pass(m, a, b, p, q)
}

// What follows are the edges. Row p with a entries gone from the top goes to row q.
pub fn popped_edge(m: &Record, a: u8, p: u32, q: u32) -> Result<(), Short>
    ensures { short_in result ≡ edge_short m.now.class.vars (edge (popped a (row_in m.now p)) (wants (row_in m.now q))) }
{
    pass(m, a, 0, Ok(()), p, q)
}

// .. with Int on top.
pub fn int_edge(m: &Record, p: u32, q: u32) -> Result<(), Short>
    ensures { short_in result ≡ edge_short m.now.class.vars (edge (pushed Int (row_in m.now p)) (wants (row_in m.now q))) }
{
    let t = entries::compare_int(m.classes, rows::stack_word(m, q, 0));
    pass(m, 0, 1, t, p, q)
}

// .. with Int in the top's stead.
pub fn counted_edge(m: &Record, p: u32, q: u32) -> Result<(), Short>
    ensures { short_in result ≡ edge_short m.now.class.vars (edge (pushed Int (popped 1 (row_in m.now p))) (wants (row_in m.now q))) }
{
    let t = entries::compare_int(m.classes, rows::stack_word(m, q, 0));
    pass(m, 1, 1, t, p, q)
}

// .. with class c with (0,0) on top.
pub fn made_edge(m: &Record, c: u8, p: u32, q: u32) -> Result<(), Short>
    ensures { short_in result ≡ edge_short m.now.class.vars (edge (pushed (Ref c 0 no_end) (row_in m.now p)) (wants (row_in m.now q))) }
{
    let t = entries::compare_made(m.classes, c, rows::stack_word(m, q, 0));
    pass(m, 0, 1, t, p, q)
}

// .. with what a field of this descriptor holds in the top's stead.
pub fn field_edge(m: &Record, descriptor: u8, p: u32, q: u32) -> Result<(), Short>
    ensures { short_in result ≡ edge_short m.now.class.vars (edge (pushed (field_entry descriptor) (popped 1 (row_in m.now p))) (wants (row_in m.now q))) }
{
    let t = entries::compare_field(m.classes, descriptor, rows::stack_word(m, q, 0));
    pass(m, 1, 1, t, p, q)
}

// .. with the top in variable v.
pub fn stored_edge(m: &Record, v: u8, p: u32, q: u32) -> Result<(), Short>
    ensures { short_in result ≡ edge_short m.now.class.vars (edge (popped 1 (stored v ((row_in m.now p).stack 0) (row_in m.now p))) (wants (row_in m.now q))) }
{
    let w = word_short(
        m.classes,
        rows::stack_word(m, p, 0),
        rows::variable_word(m, q, v),
    );
    pass_but(m, v, w, 1, 0, Ok(()), p, q)
}

// .. with variable v on top, too.
pub fn loaded_edge(m: &Record, v: u8, p: u32, q: u32) -> Result<(), Short>
    ensures { short_in result ≡ edge_short m.now.class.vars (edge (pushed ((row_in m.now p).variable v) (row_in m.now p)) (wants_loaded v (row_in m.now p) (row_in m.now q))) }
{
    let x = rows::variable_word(m, p, v);
    let top = rows::stack_word(m, q, 0);
    if entries::is_reference(m.classes, x) {
        let w = entries::compare_both(m.classes, x, rows::variable_word(m, q, v), top);
        return pass_but(m, v, w, 0, 1, Ok(()), p, q);
    }
    pass(m, 0, 1, word_short(m.classes, x, top), p, q)
}

// .. with the lock of variable v taken.
pub fn entered_edge(m: &Record, v: u8, p: u32, q: u32) -> Result<(), Short>
    ensures { short_in result ≡ edge_short m.now.class.vars (edge (row_in m.now p) (wants_at v (want_entered ((row_in m.now q).variable v)) (row_in m.now q))) }
{
    let w = entries::compare_entered(
        m.classes,
        rows::variable_word(m, p, v),
        rows::variable_word(m, q, v),
    );
    pass_but(m, v, w, 0, 0, Ok(()), p, q)
}

// .. where v may have been null: from class c with (0,0).
pub fn made_entered_edge(m: &Record, c: u8, v: u8, p: u32, q: u32) -> Result<(), Short>
    ensures { short_in result ≡ edge_short m.now.class.vars (edge (stored v (Ref c 0 no_end) (row_in m.now p)) (wants_at v (want_entered ((row_in m.now q).variable v)) (row_in m.now q))) }
{
    let w = entries::compare_made_entered(m.classes, c, rows::variable_word(m, q, v));
    pass_but(m, v, w, 0, 0, Ok(()), p, q)
}

// .. and given back.
pub fn exited_edge(m: &Record, v: u8, p: u32, q: u32) -> Result<(), Short>
    ensures { short_in result ≡ edge_short m.now.class.vars (edge (row_in m.now p) (wants_at v (want_exited ((row_in m.now q).variable v)) (row_in m.now q))) }
{
    let w = entries::compare_exited(
        m.classes,
        rows::variable_word(m, p, v),
        rows::variable_word(m, q, v),
    );
    pass_but(m, v, w, 0, 0, Ok(()), p, q)
}

// .. with its stack emptied.
pub fn emptied_edge(m: &Record, p: u32, q: u32) -> Result<(), Short>
    ensures { short_in result ≡ edge_short m.now.class.vars (edge (emptied (row_in m.now p)) (wants (row_in m.now q))) }
{
    vars_pass(m, p, q)
}

fn var_goes(m: &Record, p: u32, i: u8) -> bool
    ensures { result ≡ var_goes (row_in m.now p) i }
{
    entries::may_go(m.classes, rows::variable_word(m, p, i))
}

pub fn vars_go(m: &Record, p: u32) -> bool
    ensures { result ≡ vars_go m.now.class.vars (row_in m.now p) }
{
    for i in 0..m.class.vars {
        if !var_goes(m, p, i) {
            return false;
        }
    }
    true
}

fn entry_goes(m: &Record, p: u32, j: u8) -> bool
    ensures { result ≡ entry_goes (row_in m.now p) j }
{
    entries::may_go(m.classes, rows::stack_word(m, p, j))
}

pub fn stack_goes(m: &Record, p: u32) -> bool
    ensures { result ≡ stack_goes (row_in m.now p) }
{
    for j in 0..rows::depth_at(m, p) {
        if !entry_goes(m, p, j) {
            return false;
        }
    }
    true
}

fn below_goes(m: &Record, p: u32, j: u8) -> bool
    requires { j ≤ 254 }
    ensures { result ≡ entry_goes (popped 1 (row_in m.now p)) j }
{
    entries::may_go(m.classes, rows::stack_word(m, p, 1 + j))
}

// The stack without its top.
pub fn rest_goes(m: &Record, p: u32) -> bool
    ensures { result ≡ stack_goes (popped 1 (row_in m.now p)) }
{
    for j in 0..rows::depth_at(m, p).saturating_sub(1) {
        if !below_goes(m, p, j) {
            return false;
        }
    }
    true
}
