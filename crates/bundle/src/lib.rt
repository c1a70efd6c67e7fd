// The bundle as it is read: the directory, the records, and one instruction. Every read is total.
#![tactic(auto)]

ghost use Rattle.std.specs.Prelude.{◌≡◌, ◌+◌, ◌*◌, ◌<◌, ◌≤◌, length};
ghost use Rattle.ground.specs.Bytes.{at, Begins};
ghost use Rattle.bundle.specs.Container.{directory_at, classes, exception, head_at, class_at, width, size, record_fits, part_of, part_place, code_from, no_code, instruction_place, code_at, instruction_at, field_at};

use instructions::{Addr, Code, Instruction};

// What the directory says of one class.
#[derive(Clone, Copy)]
pub struct Class {
    pub offset: u16,
    pub args: u8,
    pub vars: u8,
    pub limit: u8,
    pub fields: u8,
    pub code: u16,
}

pub fn directory_at(b: &[u8]) -> u16
    ensures { result ≡ directory_at b.now }
{
    ground::word(b, ground::back(b, 8))
}

pub fn classes(b: &[u8]) -> u8
    ensures { result ≡ classes b.now }
{
    ground::byte(b, ground::back(b, 6))
}

// The class of what a failed new throws, and of all that athrow may throw.
pub fn exception(b: &[u8]) -> u8
    ensures { result ≡ exception b.now }
{
    ground::byte(b, ground::back(b, 5))
}

// The eight bytes at d, where they are known to be there: no end is asked for.
fn head_within(b: &[u8], d: usize) -> Class
    requires { (d < 1048576) × (d + 7 < length b.now) }
    ensures { result ≡ head_at b.now d }
{
    Class {
        offset: ground::join(b[d], b[d + 1]),
        args: b[d + 2],
        vars: b[d + 3],
        limit: b[d + 4],
        fields: b[d + 5],
        code: ground::join(b[d + 6], b[d + 7]),
    }
}

fn head_at(b: &[u8], d: usize) -> Class
    requires { d < 1048576 }
    ensures { result ≡ head_at b.now d }
{
    if d + 7 < b.len() {
        return head_within(b, d);
    }
    Class {
        offset: ground::word(b, d),
        args: ground::byte(b, d + 2),
        vars: ground::byte(b, d + 3),
        limit: ground::byte(b, d + 4),
        fields: ground::byte(b, d + 5),
        code: ground::word(b, d + 6),
    }
}

pub fn class_at(b: &[u8], c: u8) -> Class
    ensures { result ≡ class_at b.now c }
{
    head_at(b, directory_at(b) as usize + 8 * (c as usize))
}

// The bytes of one row.
pub fn width(k: Class) -> usize
    ensures { (result ≡ width k) × (result ≤ 2041) }
{
    4 * (k.vars as usize) + 1 + 4 * (k.limit as usize)
}

// The bytes of one record.
pub fn size(k: Class) -> usize
    ensures { (result ≡ size k) × (result < 268435456) }
{
    k.args as usize + k.fields as usize + 4 * (k.code as usize) + (k.code as usize) * width(k)
}

pub fn record_fits(b: &[u8], k: Class) -> bool
    ensures { result ≡ record_fits b.now k }
{
    k.offset as usize + size(k) <= ground::back(b, 8)
}

// The record as a part of the lent bundle, no copy; empty where it does not fit.
pub fn part_of<'a>(b: &'a [u8], k: Class) -> &'a [u8]
    ensures { (result.now ≡ part_of b.now k) × Begins result b.entry (part_place b.now k) }
{
    if !record_fits(b, k) {
        return &b[..0];
    }
    let start = k.offset as usize;
    let end = start + size(k);
    &b[start..end]
}

fn code_from(r: &[u8], p: usize) -> Code
    requires { p < 1048576 }
    ensures { result ≡ code_from r.now p }
{
    if p + 3 < r.len() {
        return Code {
            opcode: r[p],
            operand: r[p + 1],
            address: ground::join(r[p + 2], r[p + 3]),
        };
    }
    Code {
        opcode: ground::byte(r, p),
        operand: ground::byte(r, p + 1),
        address: ground::word(r, p + 2),
    }
}

fn instruction_place(k: Class, l: Addr) -> usize
    requires { 1 ≤ l.0 }
    ensures { (result ≡ instruction_place k l.0) × (result < 1048576) }
{
    k.args as usize + k.fields as usize + 4 * ((l.0 - 1) as usize)
}

fn no_code() -> Code
    ensures { result ≡ no_code }
{
    Code {
        opcode: 0,
        operand: 0,
        address: 0,
    }
}

// A class's record with what reads it: how many classes its bundle has, the directory's numbers of the class, and the record's bytes.
#[derive(Clone, Copy)]
pub struct Record<'a> {
    pub classes: u8,
    pub class: Class,
    pub bytes: &'a [u8],
}

pub fn record_at<'a>(b: &'a [u8], c: u8) -> Record<'a>
    ensures count { result.classes ≡ classes b.now }
    ensures numbers { result.class ≡ class_at b.now c }
    ensures bytes { result.bytes.now ≡ part_of b.now (class_at b.now c) }
{
    let class = class_at(b, c);
    Record {
        classes: classes(b),
        class,
        bytes: part_of(b, class),
    }
}

impl<'a> Record<'a> {
    // The four bytes of the instruction at address l.
    pub fn code_at(&self, l: Addr) -> Code
        ensures { result ≡ code_at self.now.class self.now.bytes.now l.0 }
    {
        if l.0 < 1 {
            return no_code();
        }
        if self.class.code < l.0 {
            return no_code();
        }
        code_from(self.bytes, instruction_place(self.class, l))
    }

    pub fn instruction_at(&self, l: Addr) -> Instruction
        ensures { result ≡ instruction_at self.now.class self.now.bytes.now l.0 }
    {
        instructions::instruction_of(self.code_at(l))
    }

    // The descriptor of field i.
    pub fn field_at(&self, i: u8) -> u8
        ensures { result ≡ field_at self.now.class self.now.bytes.now i }
    {
        ground::byte(self.bytes, self.class.args as usize + i as usize)
    }
}
