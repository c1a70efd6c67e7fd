// Document 02, Q-5: the pairs of a bundle worked out, the least that the verifier accepts.
#![tactic(auto)]

ghost use Rattle.std.specs.Prelude.{◌≡◌, ◌&&◌, ℕ, ◌+◌, ◌<◌, ◌≤◌, leb, ltb, eqb, length};
ghost use Rattle.ground.specs.Bytes.{at};
ghost use Rattle.bundle.specs.Container.{classes, part_of};
ghost use Rattle.bundle.specs.Program.{program_of};
ghost use Rattle.rows.specs.Rows.{row_start, depth_at, row_of};
ghost use Rattle.verdicts.specs.Numbers.{judgement};
ghost use Rattle.shape.specs.PairBytes.{behind, place_in};
ghost use Rattle.needs.specs.Needs.{entry_need};
ghost use Rattle.pairs.specs.Answer.{Answer};
ghost use Rattle.pairs.specs.Rises.{rise_in, settled_in};
ghost use Rattle.passes.specs.Passes.{Raise, Clear, Raised, Cleared, GivenRow, Given, GivenEntry, Anything, TheSlot, EverySlot, TheRow, TheClass, Every, goal_of, ClassSettled, Settled};
ghost use Rattle.passes.specs.Marks.{goals, Marked, Found, Looked};
ghost use Rattle.pairs.specs.Works.{Sought, Worked};

use bundle::{Class, Record};
use instructions::{Addr, Instruction};
use needs::Pair;
use verdicts::Refusal;

// A pair would have to be above the greatest there is.
#[derive(Clone, Copy)]
struct OutOfRange;

// How many classes a bundle has, and what its directory says of one of them. Where a bundle can be read, no pair that is written changes either.
#[derive(Clone, Copy)]
struct Numbers {
    classes: u8,
    class: Class,
}

impl Numbers {
    // The class's record, as it is between two writes.
    fn record<'a>(self, b: &'a [u8]) -> Record<'a>
        ensures count { result.classes ≡ self.classes }
        ensures numbers { result.class ≡ self.class }
        ensures bytes { result.bytes.now ≡ part_of b.now self.class }
    {
        Record {
            classes: self.classes,
            class: self.class,
            bytes: bundle::part_of(b, self.class),
        }
    }
}

// What the instruction x at address l asks of entry s of row l. A depth is a byte, so that an entry's number is at most V + 254.
#[tactic(auto, unfolding(needs::specs::Needs::entry_need))]
fn entry_need(b: &[u8], m: &Record, l: u16, x: Instruction, s: u16) -> Pair
    requires { s < m.now.class.vars + 255 }
    ensures { result ≡ entry_need (program_of b.now) m.now.class.vars (row_of m.now) l x s }
{
    let vars = m.class.vars as u16;
    if s < vars {
        return needs::var_need(m, Addr(l), x, s as u8);
    }
    needs::stack_need(b, m, Addr(l), x, (s - vars) as u8)
}

#[tactic(auto, unfolding(shape::specs::PairBytes::behind))]
fn behind(k: Class, s: u16) -> u32
    ensures { (result ≡ behind k s) × (result < 300000) }
{
    if s < k.vars as u16 {
        return 4 * (s as u32);
    }
    4 * (s as u32) + 1
}

#[tactic(auto, unfolding(shape::specs::PairBytes::place_in))]
fn place_in(k: Class, l: u16, s: u16) -> usize
    ensures { (result ≡ place_in k l s) × (result < 8589934592) }
{
    rows::row_start(k, Addr(l)) as usize + behind(k, s) as usize
}

fn has(d: u8, e: u8, q: Pair) -> bool
    ensures { result ≡ (leb q.dip d && leb q.end e) }
{
    q.dip <= d as u16 && q.end <= e as u16
}

// A reference stands at place p, all of it.
fn is_reference(b: &[u8], p: usize) -> bool
    requires { p < 17179869184 }
    ensures { result ≡ (ltb (p + 3) (length b.now) && eqb (at b.now p) 3) }
{
    p + 3 < b.len() && b[p] == 3
}

// The pair of the reference at place p is raised to at least q; whether it rose.
fn raise(b: &mut [u8], p: usize, q: Pair) -> Result<bool, OutOfRange>
    requires { (p + 3 < length b.old) × (at b.old p ≡ 3) }
    ensures { Raise b.old p q (rise_in result) b.new }
{
    if 63 < q.dip || 127 < q.end {
        return Err(OutOfRange);
    }
    let d = b[p + 2];
    let e = b[p + 3];
    if has(d, e, q) {
        return Ok(false);
    }
    b[p + 2] = d.max(q.dip as u8);
    b[p + 3] = e.max(q.end as u8);
    Ok(true)
}

fn clear(b: &mut [u8], p: usize)
    requires { p < 17179869184 }
    ensures { Clear b.old p b.new }
{
    if is_reference(b, p) {
        b[p + 2] = 0;
        b[p + 3] = 1;
    }
}

// How many entries of row l are in use: the variables, and the stack within its depth.
fn in_use(m: &Record, l: u16) -> u16
    ensures { (result ≡ m.now.class.vars + depth_at m.now.bytes.now (row_start m.now.class l) m.now.class.vars) × (result < m.now.class.vars + 256) }
{
    m.class.vars as u16 + rows::depth_at(m, rows::row_start(m.class, Addr(l))) as u16
}

fn clear_row(b: &mut [u8], k: Numbers, l: u16)
    ensures { (c : ℕ) → Cleared (GivenRow c k.class l) (TheRow c l) b.old b.new }
{
    let m = in_use(&k.record(b), l);
    for s in 0..m {
        clear(b, k.class.offset as usize + place_in(k.class, l, s));
    }
}

fn clear_class(b: &mut [u8], n: u8, c: u8)
    ensures { Cleared (λ x. c < classes x) (TheClass c) b.old b.new }
{
    let k = Numbers {
        classes: n,
        class: bundle::class_at(b, c),
    };
    for i in 0..k.class.code {
        clear_row(b, k, i + 1);
    }
}

fn clear_all(b: &mut [u8])
    ensures { Cleared Anything Every b.old b.new }
{
    let n = bundle::classes(b);
    for c in 0..n {
        clear_class(b, n, c);
    }
}

// The entry s of row l is raised to what the instruction x at l asks of it.
fn raise_entry(b: &mut [u8], k: Numbers, l: u16, x: Instruction, s: u16) -> Result<bool, OutOfRange>
    requires { s < k.class.vars + 255 }
    ensures { (c : ℕ) → Raised (GivenEntry k.classes c k.class l x s) c l (TheSlot s) b.old (rise_in result) b.new }
{
    let p = k.class.offset as usize + place_in(k.class, l, s);
    if !is_reference(b, p) {
        return Ok(false);
    }
    let q = entry_need(b, &k.record(b), l, x, s);
    raise(b, p, q)
}

fn raise_row(b: &mut [u8], k: Numbers, l: u16) -> Result<bool, OutOfRange>
    ensures { (c : ℕ) → Raised (Given k.classes c k.class l) c l EverySlot b.old (rise_in result) b.new }
{
    let r = k.record(b);
    let x = r.instruction_at(Addr(l));
    let m = in_use(&r, l);
    let mut rose = false;
    for s in 0..m {
        rose |= raise_entry(b, k, l, x, s)?;
    }
    Ok(rose)
}

fn goal_of(x: Instruction) -> u16
    ensures { result ≡ goal_of x }
{
    match x {
        Instruction::If(l)
        | Instruction::Enter(_, l)
        | Instruction::New(_, l)
        | Instruction::Throw(l)
        | Instruction::Get(_, _, l)
        | Instruction::Put(_, _, l) => l.0,
        _ => 0,
    }
}

// The target or handler of every address of a class.
fn goals(m: &Record) -> [u16; 257]
    requires { m.now.class.code ≤ 256 }
    ensures { result ≡ goals m.now.class m.now.bytes.now }
{
    let mut g = [0u16; 257];
    for l in 0..m.class.code + 1 {
        g[l as usize] = goal_of(m.instruction_at(Addr(l)));
    }
    g
}

// The last address that has l as its target or handler, where it stands behind l: that row is the next to look at once row l has risen. Wherever the next look goes, the pairs come out the same.
fn hints(g: &[u16], code: u16) -> [u16; 257]
    requires { (length g.now ≡ 257) × (code ≤ 256) }
{
    let mut h = [0u16; 257];
    for l in 0..code + 1 {
        let a = g[l as usize];
        if a < l {
            h[a as usize] = l;
        }
    }
    h
}

// Every address whose row reads row l is marked.
fn mark_readers(m: &mut [bool], g: &[u16], code: u16, l: u16)
    requires { (length m.old ≡ 257) × (length g.now ≡ 257) × (code ≤ 256) × (1 ≤ l) × (l ≤ code) }
    ensures { Marked g.now code l m.old m.new }
{
    for j in 0..code as usize + 1 {
        m[j] |= g[j] == l;
    }
    m[(l - 1) as usize] = true;
}

// The last marked address above floor, up to top.
fn last_marked(m: &[bool], floor: u16, top: u16) -> Option<u16>
    requires { (length m.now ≡ 257) × (floor ≤ top) × (top ≤ 256) }
    ensures { Found m.now floor top result }
{
    for l in (floor + 1..=top).rev() {
        if m[l as usize] {
            return Some(l);
        }
    }
    None
}

// A marked address, the last one up to `from` if there is one.
fn next_marked(m: &[bool], code: u16, from: u16) -> Option<u16>
    requires { (length m.now ≡ 257) × (code ≤ 256) × (from ≤ code) }
    ensures { Found m.now 0 code result }
{
    if let Some(l) = last_marked(m, 0, from) {
        return Some(l);
    }
    last_marked(m, from, code)
}

// Row l is looked at: its mark is taken away, it is raised, and where it rose the rows that read it are marked.
fn look_at(b: &mut [u8], m: &mut [bool], g: &[u16], k: Numbers, l: u16) -> Result<bool, OutOfRange>
    requires { (length m.old ≡ 257) × (length g.now ≡ 257) × (k.class.code ≤ 256) × (1 ≤ l) × (l ≤ k.class.code) }
    ensures { (c : ℕ) → Looked k.classes c k.class g.now l m.old b.old (rise_in result) m.new b.new }
{
    m[l as usize] = false;
    let rose = raise_row(b, k, l)?;
    if rose {
        mark_readers(m, g, k.class.code, l);
    }
    Ok(rose)
}

// Where the next look begins: behind a row that rose, at the last jump back to it.
fn from(h: &[u16], code: u16, l: u16, rose: bool) -> u16
    requires { (length h.now ≡ 257) × (code ≤ 256) × (l ≤ code) }
    ensures { result ≤ code }
{
    let a = h[l as usize];
    if rose && l <= a && a <= code { a } else { l }
}

// The rows of a class are looked at until no mark is left, or a pair would have to be out of range.
// The bound: after the first look at each of k rows, a row is looked at only where one of the two that it reads has risen, and a row of E entries rises at most 189 * E times. That is k + 2 * k * 189 * E looks, each at E entries and k marks: O(k²), where the source's own inference is O(k^5).
fn settle_class(b: &mut [u8], n: u8, c: u8) -> Result<(), OutOfRange>
    ensures { ClassSettled n c b.old (settled_in result) b.new }
{
    let k = Numbers {
        classes: n,
        class: bundle::class_at(b, c),
    };
    let code = k.class.code;
    if 256 < code {
        return Ok(());
    }
    let g = goals(&k.record(b));
    let h = hints(&g, code);
    let mut m = [true; 257];
    let mut start = code;
    while let Some(l) = next_marked(&m, code, start) {
        let rose = look_at(b, &mut m, &g, k, l)?;
        start = from(&h, code, l, rose);
    }
    Ok(())
}

// Classes have nothing to ask of one another: each is settled by itself.
fn settle(b: &mut [u8]) -> Result<(), OutOfRange>
    ensures { Settled b.old (settled_in result) b.new }
{
    let n = bundle::classes(b);
    for c in 0..n {
        settle_class(b, n, c)?;
    }
    Ok(())
}

// The pairs of a bundle that can be read: whether any are accepted, and then the least are written.
fn sought(b: &mut [u8]) -> bool
    ensures { Sought b.old result b.new }
{
    clear_all(b);
    settle(b).is_ok() && verifier::verify(b).is_ok()
}

// .. or, where there are none, the bundle is left as it came.
fn worked(b: &mut [u8]) -> bool
    requires { length b.old ≤ 65535 }
    ensures { Worked b.old result b.new }
{
    let mut store = [0u8; 65536];
    let n = b.len();
    store[..n].copy_from_slice(b);
    if sought(b) {
        return true;
    }
    b.copy_from_slice(&store[..n]);
    false
}

// Work the pairs out: the least that the verifier accepts are written into the bundle, and nothing else; every refusal leaves the bundle as it came.
pub fn fill(b: &mut [u8]) -> Result<u8, Refusal>
    ensures { Answer b.old (judgement result) b.new }
{
    let n = shape::shape(b)?;
    if !shape::all_apart(b) {
        return Err(Refusal::Overlap);
    }
    if !worked(b) {
        return Err(Refusal::NoPairs);
    }
    Ok(n)
}
