// Verdict 8 of document 01, a malformed entry or depth, and row 1.
#![tactic(auto)]

ghost use Rattle.std.specs.Prelude.{◌≡◌, ◌&&◌, true, ◌≤◌};
ghost use Rattle.ground.specs.Bounded.{all_below};
ghost use Rattle.ground.specs.Bytes.{at};
ghost use Rattle.entries.specs.Entries.{is_type};
ghost use Rattle.entries.specs.Words.{entry_from};
ghost use Rattle.rows.specs.Rows.{depth_at, row_in, row_of};
ghost use Rattle.forms.specs.Forms.{var_formed, entry_formed, vars_formed, stack_formed, row_formed, first_var, first_vars, first_row};
ghost use Rattle.forms.specs.Columns.{rest_formed, rest_of, column_formed, rows_formed};

use bundle::Record;
use instructions::Addr;

// 2,0,0,0: before the first row any type does.
const TOP_WORD: u32 = 33554432;

fn var_formed(m: &Record, p: u32, i: u8) -> bool
    ensures { result ≡ var_formed (row_in m.now p) i }
{
    entries::is_type(m.classes, rows::variable_word(m, p, i))
}

#[tactic(auto, using(ground::proofs::Bounded::every), unfolding(crate::specs::Forms::vars_formed))]
fn vars_formed(m: &Record, p: u32) -> bool
    ensures { result ≡ vars_formed m.now.class.vars (row_in m.now p) }
{
    for i in 0..m.class.vars {
        if !var_formed(m, p, i) {
            return false;
        }
    }
    true
}

// The entries in use; d is the row's depth.
#[tactic(auto, using(ground::proofs::Bounded::every))]
fn used_formed(m: &Record, p: u32, d: u8) -> bool
    requires { d ≡ depth_at m.now.bytes.now p m.now.class.vars }
    ensures { result ≡ all_below d (entry_formed (row_in m.now p)) }
{
    for j in 0..d {
        if !entries::is_type(m.classes, rows::stack_word(m, p, j)) {
            return false;
        }
    }
    true
}

// .. and then those below them.
#[tactic(auto, using(ground::proofs::Bounded::every), unfolding(crate::specs::Forms::stack_formed))]
fn stack_formed(m: &Record, p: u32, d: u8) -> bool
    requires { (d ≡ depth_at m.now.bytes.now p m.now.class.vars) × (d ≤ m.now.class.limit) }
    ensures { result ≡ stack_formed m.now.class.limit (row_in m.now p) }
{
    if !used_formed(m, p, d) {
        return false;
    }
    for j in d..m.class.limit {
        if !entries::is_blank(m.classes, rows::stack_word(m, p, j)) {
            return false;
        }
    }
    true
}

// The depth and the stack of a row.
#[tactic(auto, using(ground::proofs::Tests::tests), unfolding(crate::specs::Columns::rest_formed))]
fn rest_formed(m: &Record, p: u32) -> bool
    ensures { result ≡ rest_formed m.now.class.limit (row_in m.now p) }
{
    let d = rows::depth_at(m, p);
    if m.class.limit < d {
        return false;
    }
    stack_formed(m, p, d)
}

#[tactic(auto, using(crate::proofs::Columns::row_parts))]
fn row_from_formed(m: &Record, p: u32) -> bool
    ensures { result ≡ row_formed m.now.class.vars m.now.class.limit (row_in m.now p) }
{
    if !vars_formed(m, p) {
        return false;
    }
    rest_formed(m, p)
}

// Verdict 8 at address l of the method whose record is m.
pub fn row_formed(m: &Record, l: Addr) -> bool
    ensures { result ≡ row_formed m.now.class.vars m.now.class.limit (row_of m.now l.0) }
{
    row_from_formed(m, rows::row_start(m.class, l))
}

// Whether w is a type, too, where the entries before it, the last of them `last`, are or not: an entry that stays is not asked again.
fn still_formed(n: u8, formed: bool, last: u32, w: u32) -> bool
    requires { formed ≡ true → is_type (entry_from n last) ≡ true }
    ensures { result ≡ (formed && is_type (entry_from n w)) }
{
    if w == last {
        return formed;
    }
    formed & entries::is_type(n, w)
}

// Variable i in every row.
fn column_formed(m: &Record, i: u8) -> bool
    ensures { result ≡ column_formed m.now.classes m.now.class m.now.bytes.now i }
{
    let mut formed = true;
    let mut last = TOP_WORD;
    for l in 0..m.class.code {
        let w = rows::variable_word(m, rows::next_start(m.class, Addr(l)), i);
        formed = still_formed(m.classes, formed, last, w);
        last = w;
    }
    formed
}

#[tactic(auto, using(ground::proofs::Bounded::every))]
fn columns_formed(m: &Record) -> bool
    ensures { result ≡ all_below m.now.class.vars (column_formed m.now.classes m.now.class m.now.bytes.now) }
{
    for i in 0..m.class.vars {
        if !column_formed(m, i) {
            return false;
        }
    }
    true
}

#[tactic(auto, using(ground::proofs::Bounded::every))]
fn rests_formed(m: &Record) -> bool
    ensures { result ≡ all_below m.now.class.code (rest_of m.now.classes m.now.class m.now.bytes.now) }
{
    for l in 0..m.class.code {
        if !rest_formed(m, rows::next_start(m.class, Addr(l))) {
            return false;
        }
    }
    true
}

// All rows of a method at once, their variables column by column: what follows an entry there is most often the same.
pub fn rows_formed(m: &Record) -> bool
    ensures { result ≡ rows_formed m.now.classes m.now.class m.now.bytes.now }
{
    if !columns_formed(m) {
        return false;
    }
    rests_formed(m)
}

#[tactic(auto, using(ground::proofs::Tests::tests, crate::proofs::Columns::fits), unfolding(crate::specs::Forms::first_var))]
fn first_var(m: &Record, p: u32, i: u8) -> bool
    ensures { result ≡ first_var m.now.class.args (at m.now.bytes.now) (row_in m.now p) i }
{
    let w = rows::variable_word(m, p, i);
    if i < m.class.args {
        return entries::compare_argument(m.classes, ground::byte(m.bytes, i as usize), w).is_ok();
    }
    entries::is_top(m.classes, w)
}

#[tactic(auto, using(ground::proofs::Bounded::every), unfolding(crate::specs::Forms::first_vars))]
fn first_vars(m: &Record, p: u32) -> bool
    ensures { result ≡ first_vars m.now.class.vars m.now.class.args (at m.now.bytes.now) (row_in m.now p) }
{
    for i in 0..m.class.vars {
        if !first_var(m, p, i) {
            return false;
        }
    }
    true
}

// Row 1 of the method whose record is m.
#[tactic(auto, using(ground::proofs::Tests::tests), unfolding(crate::specs::Forms::first_row))]
pub fn first_row(m: &Record) -> bool
    ensures { result ≡ first_row m.now.class.vars m.now.class.args (at m.now.bytes.now) (row_of m.now 1) }
{
    let p = rows::row_start(m.class, Addr(1));
    if rows::depth_at(m, p) != 0 {
        return false;
    }
    first_vars(m, p)
}
