// A row as it stands in the bundle, read entry by entry from a record and numbers. Every read is total; a place is a u32, so that no sum wraps.
#![tactic(auto)]

ghost use Rattle.std.specs.Prelude.{◌≡◌, ◌≢◌, true, ℕ, ◌+◌, ◌<◌, length};
ghost use Rattle.ground.specs.Bytes.{quad};
ghost use Rattle.entries.specs.Words.{entry_from};
ghost use Rattle.bundle.specs.declared.Class.{Class};
ghost use Rattle.rows.specs.Rows.{start_behind, row_start, variable_at, depth_at, stack_at, row_in};
ghost use Rattle.rows.specs.Words.{variable_word, entry_word, same_but, vars_same};

use bundle::{Class, Record};
use instructions::Addr;

// Where a row begins that i rows come before.
fn start_behind(k: Class, i: u16) -> u32
    ensures { result ≡ start_behind k i }
{
    k.args as u32 + k.fields as u32 + 4 * (k.code as u32) + (i as u32) * (bundle::width(k) as u32)
}

// Where the row of address l begins in a record.
pub fn row_start(k: Class, l: Addr) -> u32
    ensures { result ≡ row_start k l.0 }
{
    if l.0 < 1 {
        return start_behind(k, 0);
    }
    start_behind(k, l.0 - 1)
}

// .. and the row of the address after l.
pub fn next_start(k: Class, l: Addr) -> u32
    ensures { result ≡ row_start k (l.0 + 1) }
{
    start_behind(k, l.0)
}

fn read_variable(r: &[u8], s: u32, i: u8) -> u32
    ensures word { result ≡ variable_word r.now s i }
    ensures entry { (n : ℕ) → entry_from n result ≡ variable_at n r.now s i }
{
    ground::quad(r, s as usize + 4 * (i as usize))
}

fn read_depth(r: &[u8], s: u32, vars: u8) -> u8
    ensures { result ≡ depth_at r.now s vars }
{
    ground::byte(r, s as usize + 4 * (vars as usize))
}

// .. of a row that has it.
fn read_stack(r: &[u8], s: u32, vars: u8, j: u8) -> u32
    ensures word { (k : Class) → k.vars ≡ vars → j < k.limit → result ≡ entry_word k r.now s j }
    ensures entry { (n : ℕ) (k : Class) → k.vars ≡ vars → j < k.limit → entry_from n result ≡ stack_at n k r.now s j }
{
    ground::quad(r, s as usize + 4 * (vars as usize) + 1 + 4 * (j as usize))
}

// The part of the bundle, where a row begins in it, V and K.
#[derive(Clone, Copy)]
struct Row<'a> {
    part: &'a [u8],
    start: u32,
    vars: u8,
    limit: u8,
}

fn begin<'a>(m: &Record<'a>, s: u32) -> Row<'a>
    ensures { (result.part ≡ m.now.bytes) × (result.start ≡ s) × (result.vars ≡ m.now.class.vars) × (result.limit ≡ m.now.class.limit) }
{
    Row {
        part: m.bytes,
        start: s,
        vars: m.class.vars,
        limit: m.class.limit,
    }
}

impl<'a> Row<'a> {
    fn variable(&self, i: u8) -> u32
        ensures word { result ≡ variable_word self.now.part.now self.now.start i }
        ensures entry { (n : ℕ) → entry_from n result ≡ variable_at n self.now.part.now self.now.start i }
    {
        read_variable(self.part, self.start, i)
    }

    fn depth(&self) -> u8
        ensures { result ≡ depth_at self.now.part.now self.now.start self.now.vars }
    {
        read_depth(self.part, self.start, self.vars)
    }

    // 0 past K.
    fn stack(&self, j: u8) -> u32
        ensures word { (k : Class) → k.vars ≡ self.now.vars → k.limit ≡ self.now.limit → result ≡ entry_word k self.now.part.now self.now.start j }
        ensures entry { (n : ℕ) (k : Class) → k.vars ≡ self.now.vars → k.limit ≡ self.now.limit → entry_from n result ≡ stack_at n k self.now.part.now self.now.start j }
    {
        if self.limit <= j {
            return 0;
        }
        read_stack(self.part, self.start, self.vars, j)
    }
}

// The four bytes of the entry of variable i, in the row that begins at s, as one number; and what entry they are.
pub fn variable_word(m: &Record, s: u32, i: u8) -> u32
    ensures { (result ≡ variable_word m.now.bytes.now s i) × (entry_from m.now.classes result ≡ variable_at m.now.classes m.now.bytes.now s i) }
{
    begin(m, s).variable(i)
}

pub fn depth_at(m: &Record, s: u32) -> u8
    ensures { result ≡ depth_at m.now.bytes.now s m.now.class.vars }
{
    begin(m, s).depth()
}

// .. of the stack entry j, the top being entry 0.
pub fn stack_word(m: &Record, s: u32, j: u8) -> u32
    ensures { (result ≡ entry_word m.now.class m.now.bytes.now s j) × (entry_from m.now.classes result ≡ stack_at m.now.classes m.now.class m.now.bytes.now s j) }
{
    begin(m, s).stack(j)
}

// The four bytes at i, where they are known to be there: no end is asked for.
fn word_within(r: &[u8], i: usize) -> u32
    requires { i + 3 < length r.now }
    ensures { result ≡ quad r.now i }
{
    ground::halves(
        ground::join(r[i], r[i + 1]),
        ground::join(r[i + 2], r[i + 3]),
    )
}

// The end is asked for once, for all n entries.
fn same_but(r: &[u8], p: usize, q: usize, n: u8, v: u8) -> bool
    ensures words { result ≡ same_but r.now p q n v }
    ensures entries { result ≡ true → (c i : ℕ) → i < n → i ≢ v → variable_at c r.now p i ≡ variable_at c r.now q i }
{
    let size = 4 * (n as usize);
    if r.len() < size {
        return false;
    }
    let last = r.len() - size;
    if (last < p) | (last < q) {
        return false;
    }
    for i in 0..n {
        let j = 4 * (i as usize);
        if (i != v) & (word_within(r, p + j) != word_within(r, q + j)) {
            return false;
        }
    }
    true
}

// Whether the variables of two rows, which begin at p and at q, are the same bytes.
pub fn vars_same(m: &Record, p: u32, q: u32) -> bool
    ensures words { result ≡ vars_same m.now.bytes.now p q m.now.class.vars }
    ensures entries { result ≡ true → (i : ℕ) → i < m.now.class.vars → (row_in m.now p).variable i ≡ (row_in m.now q).variable i }
{
    same_but(m.bytes, p as usize, q as usize, m.class.vars, m.class.vars)
}

// .. all but the variable v.
pub fn others_same(m: &Record, p: u32, q: u32, v: u8) -> bool
    ensures words { result ≡ same_but m.now.bytes.now p q m.now.class.vars v }
    ensures entries { result ≡ true → (i : ℕ) → i < m.now.class.vars → i ≢ v → (row_in m.now p).variable i ≡ (row_in m.now q).variable i }
{
    same_but(m.bytes, p as usize, q as usize, m.class.vars, v)
}
