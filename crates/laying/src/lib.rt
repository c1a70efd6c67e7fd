// Document 02, Q-12: what a weaver gives, laid out as a bundle: records in class order, directory, trailer.
#![tactic(auto)]

ghost use Rattle.std.specs.Prelude.{[], ◌∷◌, ◌≡◌, ◌+◌, ◌*◌, ◌<◌, ◌≤◌, leb, length};
ghost use Rattle.ground.specs.Lists.{each};
ghost use Rattle.laying.specs.Given.{given_of, numbers_at};
ghost use Rattle.laying.specs.Lengths.{kind_bytes, records_before, whole};
ghost use Rattle.laying.specs.Laid.{word, entry_laid, entries_laid, row_laid, record_laid, record_of, head_laid, trailer_laid, laid};
ghost use Rattle.laying.specs.Laying.{measured, put_in, layout_in, layout_of, laid_in, nameless};
ghost use Rattle.laying.specs.Loops.{Lays, Room, sizes_of, more, Under, Near, Measured, Within};

use bundle::Class;
use verdicts::Refusal;

// What a weaver gives: the class count, the exception class, and five strings of bytes, each with all classes one after the other.
#[derive(Clone, Copy)]
pub struct Parts<'a> {
    pub classes: u32,
    pub exception: u32,
    pub directory: &'a [u8],
    pub descriptors: &'a [u8],
    pub instructions: &'a [u8],
    pub kinds: &'a [u8],
    pub depths: &'a [u8],
}

// How many bytes of each string some classes take, and of records.
#[derive(Clone, Copy, Default)]
struct Sizes {
    descriptors: usize,
    instructions: usize,
    kinds: usize,
    depths: usize,
    records: usize,
}

#[tactic(auto, unfolding(crate::specs::Given::numbers_at))]
fn numbers_at(directory: &[u8], c: u8) -> Class
    ensures { result ≡ numbers_at directory.now c }
{
    let p = 6 * (c as usize);
    Class {
        offset: 0,
        args: ground::byte(directory, p),
        vars: ground::byte(directory, p + 1),
        limit: ground::byte(directory, p + 2),
        fields: ground::byte(directory, p + 3),
        code: ground::word(directory, p + 4),
    }
}

fn kind_bytes(k: Class) -> usize
    ensures { (result ≡ kind_bytes k) × (result < 268435456) }
{
    (k.code as usize) * (2 * (k.vars as usize + k.limit as usize))
}

// One class more.
fn more(s: Sizes, k: Class) -> Sizes
    requires { Under 8589934592 s }
    ensures { (result ≡ more s k) × Near s result }
{
    Sizes {
        descriptors: s.descriptors + (k.args as usize + k.fields as usize),
        instructions: s.instructions + 4 * (k.code as usize),
        kinds: s.kinds + kind_bytes(k),
        depths: s.depths + k.code as usize,
        records: s.records + bundle::size(k),
    }
}

// Of the first n classes.
fn sizes_of(directory: &[u8], n: u8) -> Sizes
    requires { n ≤ 8 }
    ensures { (result ≡ sizes_of directory.now n) × Under 8589934592 result }
{
    let mut s = Sizes::default();
    for c in 0..n {
        s = more(s, numbers_at(directory, c));
    }
    s
}

// Whether each string is as long as the class count and the directory numbers ask.
#[tactic(auto, unfolding(crate::specs::Lengths::lengths_ok))]
fn lengths_ok(parts: &Parts) -> bool
    ensures { result ≡ measured (given_of parts.now) }
{
    let n = parts.classes;
    if n < 1 || 8 < n {
        return false;
    }
    let s = sizes_of(parts.directory, n as u8);
    parts.directory.len() == 6 * (n as usize)
        && parts.descriptors.len() == s.descriptors
        && parts.instructions.len() == s.instructions
        && parts.kinds.len() == s.kinds
        && parts.depths.len() == s.depths
}

#[tactic(auto, unfolding(crate::specs::Lengths::whole))]
fn whole(directory: &[u8], n: u8) -> usize
    requires { n ≤ 8 }
    ensures { result ≡ whole directory.now n }
{
    sizes_of(directory, n).records + 8 * (n as usize) + 8
}

// Each of the following lays its bytes from place p on, and gives back the place behind them.
fn lay_all(src: &[u8], out: &mut [u8], p: usize) -> usize
    requires { Room out.old p src.now }
    ensures { Lays out.old p src.now result out.new }
{
    let q = p + src.len();
    out[p..q].copy_from_slice(src);
    q
}

#[tactic(auto, unfolding(crate::specs::Laid::word))]
fn lay_word(x: usize, out: &mut [u8], p: usize) -> usize
    requires { (x ≤ 65535) × Room out.old p (word x) }
    ensures { Lays out.old p (word x) result out.new }
{
    lay_all(&[(x / 256) as u8, (x % 256) as u8], out, p)
}

#[tactic(auto, unfolding(crate::specs::Laid::entry_laid))]
fn lay_entry(kinds: &[u8], i: usize, out: &mut [u8], p: usize) -> usize
    requires { (i < 1099511627776) × Room out.old p (entry_laid kinds.now i) }
    ensures { Lays out.old p (entry_laid kinds.now i) result out.new }
{
    let kind = ground::byte(kinds, 2 * i);
    let class = ground::byte(kinds, 2 * i + 1);
    lay_all(&[kind, class, 0, 0], out, p)
}

#[tactic(auto, unfolding(crate::specs::Laid::entries_laid))]
fn lay_entries(kinds: &[u8], s: usize, n: u8, out: &mut [u8], p: usize) -> usize
    requires { (s < 1073741824) × Room out.old p (entries_laid kinds.now s n) }
    ensures { Lays out.old p (entries_laid kinds.now s n) result out.new }
{
    let mut q = p;
    for j in 0..n {
        q = lay_entry(kinds, s + j as usize, out, q);
    }
    q
}

#[tactic(auto, unfolding(crate::specs::Laid::row_laid))]
fn lay_row(k: Class, kinds: &[u8], depths: &[u8], i: u16, out: &mut [u8], p: usize) -> usize
    requires { Room out.old p (row_laid k kinds.now depths.now i) }
    ensures { Lays out.old p (row_laid k kinds.now depths.now i) result out.new }
{
    let s = (i as usize) * (k.vars as usize + k.limit as usize);
    let v = lay_entries(kinds, s, k.vars, out, p);
    let d = lay_all(&[ground::byte(depths, i as usize)], out, v);
    lay_entries(kinds, s + k.vars as usize, k.limit, out, d)
}

fn lay_rows(k: Class, kinds: &[u8], depths: &[u8], out: &mut [u8], p: usize) -> usize
    requires { Room out.old p (each k.code (row_laid k kinds.now depths.now)) }
    ensures { Lays out.old p (each k.code (row_laid k kinds.now depths.now)) result out.new }
{
    let n = k.code;
    let mut q = p;
    for i in 0..n {
        q = lay_row(k, kinds, depths, i, out, q);
    }
    q
}

// A record, from the class's own parts of the strings.
#[tactic(auto, unfolding(crate::specs::Laid::record_laid))]
fn lay_record(
    k: Class,
    descriptors: &[u8],
    instructions: &[u8],
    kinds: &[u8],
    depths: &[u8],
    out: &mut [u8],
    p: usize,
) -> usize
    requires { Room out.old p (record_laid k descriptors.now instructions.now kinds.now depths.now) }
    ensures { Lays out.old p (record_laid k descriptors.now instructions.now kinds.now depths.now) result out.new }
{
    let i = lay_all(descriptors, out, p);
    let q = lay_all(instructions, out, i);
    lay_rows(k, kinds, depths, out, q)
}

fn lay_class(parts: &Parts, c: u8, out: &mut [u8], p: usize) -> usize
    requires within { Within (given_of parts.now) c }
    requires room { Room out.old p (record_of (given_of parts.now) c) }
    ensures { Lays out.old p (record_of (given_of parts.now) c) result out.new }
{
    let k = numbers_at(parts.directory, c);
    let s = sizes_of(parts.directory, c);
    let e = more(s, k);
    lay_record(
        k,
        &parts.descriptors[s.descriptors..e.descriptors],
        &parts.instructions[s.instructions..e.instructions],
        &parts.kinds[s.kinds..e.kinds],
        &parts.depths[s.depths..e.depths],
        out,
        p,
    )
}

fn lay_records(parts: &Parts, out: &mut [u8]) -> usize
    requires measured { Measured (given_of parts.now) }
    requires room { Room out.old 0 (each parts.now.classes (record_of (given_of parts.now))) }
    ensures { Lays out.old 0 (each parts.now.classes (record_of (given_of parts.now))) result out.new }
{
    let n = parts.classes as u8;
    let mut q = 0;
    for c in 0..n {
        q = lay_class(parts, c, out, q);
    }
    q
}

#[tactic(auto, unfolding(crate::specs::Laid::word, crate::specs::Laid::head_laid))]
fn lay_head(directory: &[u8], c: u8, out: &mut [u8], p: usize) -> usize
    requires { (c < 8) × (6 * c + 6 ≤ length directory.now) × (records_before directory.now c ≤ 65535) × Room out.old p (head_laid directory.now c) }
    ensures { Lays out.old p (head_laid directory.now c) result out.new }
{
    let q = lay_word(sizes_of(directory, c).records, out, p);
    let d = 6 * (c as usize);
    lay_all(&directory[d..d + 6], out, q)
}

fn lay_directory(n: u8, directory: &[u8], out: &mut [u8], p: usize) -> usize
    requires { (n ≤ 8) × (length directory.now ≡ 6 * n) × (records_before directory.now n ≤ 65535) × Room out.old p (each n (head_laid directory.now)) }
    ensures { Lays out.old p (each n (head_laid directory.now)) result out.new }
{
    let mut q = p;
    for c in 0..n {
        q = lay_head(directory, c, out, q);
    }
    q
}

// The directory's offset, the class count, the exception class, the whole length.
#[tactic(auto, unfolding(crate::specs::Laid::word, crate::specs::Laid::trailer_laid))]
fn lay_trailer(
    offset: usize,
    n: u8,
    exception: u8,
    length: usize,
    out: &mut [u8],
    p: usize,
) -> usize
    requires { (offset ≤ 65535) × (length ≤ 65535) × Room out.old p (trailer_laid offset n exception length) }
    ensures { Lays out.old p (trailer_laid offset n exception length) result out.new }
{
    let q = lay_word(offset, out, p);
    let r = lay_all(&[n, exception], out, q);
    let s = lay_word(length, out, r);
    lay_all(&[76, 75], out, s)
}

fn lay_bundle(parts: &Parts, out: &mut [u8]) -> usize
    requires measured { Measured (given_of parts.now) }
    requires exception { parts.now.exception < parts.now.classes }
    requires short { (whole parts.now.directory.now parts.now.classes ≤ 65535) × (whole parts.now.directory.now parts.now.classes ≤ length out.old) }
    ensures { Lays out.old 0 (laid (given_of parts.now)) result out.new }
{
    let n = parts.classes as u8;
    let p = lay_records(parts, out);
    let q = lay_directory(n, parts.directory, out, p);
    lay_trailer(
        p,
        n,
        parts.exception as u8,
        whole(parts.directory, n),
        out,
        q,
    )
}

// The bundle that is given, laid out from the first byte of `out` on, and its length; a refusal writes nothing.
#[tactic(auto, unfolding(crate::specs::Laying::layout_of, crate::specs::Laying::laid_in, ground::specs::Chain::refuse))]
pub fn lay(parts: &Parts, out: &mut [u8]) -> Result<usize, Refusal>
    ensures answer { layout_in result ≡ layout_of (given_of parts.now) (length out.old) }
    ensures left { out.new ≡ laid_in (given_of parts.now) out.old }
    ensures bare { nameless result }
{
    if !lengths_ok(parts) {
        return Err(Refusal::Given);
    }
    let w = whole(parts.directory, parts.classes as u8);
    if 65535 < w {
        return Err(Refusal::Length);
    }
    if parts.classes <= parts.exception {
        return Err(Refusal::Directory);
    }
    if out.len() < w {
        return Err(Refusal::Room);
    }
    lay_bundle(parts, out);
    Ok(w)
}

// All of src, from the first byte of `out` on; nothing, and false, where `out` is shorter.
#[tactic(auto, unfolding(crate::specs::Laying::put_in, ground::specs::Chain::refuse))]
pub fn put(src: &[u8], out: &mut [u8]) -> bool
    ensures { (result ≡ leb (length src.now) (length out.old)) × (out.new ≡ put_in src.now out.old) }
{
    if out.len() < src.len() {
        return false;
    }
    lay_all(src, out, 0);
    true
}
