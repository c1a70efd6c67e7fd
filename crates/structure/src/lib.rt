// Verdicts 1 to 7 of document 01 in their order, and the search for a class's record.
#![tactic(auto)]

ghost use Rattle.std.specs.Prelude.{◌≡◌, ◌<◌, ◌≤◌, ◌/◌};
ghost use Rattle.verdicts.specs.Numbers.{found, judgement};
ghost use Rattle.structure.specs.Conditions.{length_ok, trailer_ok, directory_ok, main_ok, code_ok, limits_ok, descriptor_ok, descriptors_ok, address_ok};
ghost use Rattle.structure.specs.Places.{shape_places, table_places};
ghost use Rattle.structure.specs.Structure.{searched, head_of, layout_of, structure_of, record_of, record_place};
ghost use Rattle.structure.specs.Loops.{table_at, table_of};
ghost use Rattle.ground.specs.Lists.{each};
ghost use Rattle.ground.specs.Bytes.{Begins};
ghost use Rattle.bundle.specs.Container.{classes, class_at, fields_of};

use bundle::{Class, Record};
use instructions::{Addr, Code};
use verdicts::Refusal;

#[tactic(auto, unfolding(crate::specs::Conditions::length_ok))]
fn length_ok(b: &[u8]) -> bool
    ensures { result ≡ length_ok b.now }
{
    (8 <= b.len()) & (b.len() <= 65535)
}

#[tactic(auto, unfolding(crate::specs::Conditions::trailer_ok))]
fn trailer_ok(b: &[u8]) -> bool
    ensures { result ≡ trailer_ok b.now }
{
    (ground::byte(b, ground::back(b, 2)) == 76)
        & (ground::byte(b, ground::back(b, 1)) == 75)
        & (ground::word(b, ground::back(b, 4)) as usize == b.len())
}

#[tactic(auto, unfolding(crate::specs::Conditions::directory_ok))]
fn directory_ok(b: &[u8]) -> bool
    ensures { result ≡ directory_ok b.now }
{
    let n = bundle::classes(b);
    (1 <= n)
        & (n <= 8)
        & (bundle::directory_at(b) as usize + 8 * (n as usize) <= ground::back(b, 8))
        & (bundle::exception(b) < n)
}

// Verdicts 1 to 3, told from the length and the last eight bytes alone.
#[tactic(auto, unfolding(ground::specs::Lists::first_broken, ground::specs::Chain::refuse))]
pub fn head(b: &[u8]) -> Result<(), Refusal>
    ensures { found result ≡ head_of b.now }
{
    if !length_ok(b) {
        return Err(Refusal::Length);
    }
    if !trailer_ok(b) {
        return Err(Refusal::Trailer);
    }
    if !directory_ok(b) {
        return Err(Refusal::Directory);
    }
    Ok(())
}

#[tactic(auto, unfolding(crate::specs::Conditions::main_ok))]
fn main_ok(c: u8, k: Class) -> bool
    ensures { result ≡ main_ok c k }
{
    (c != 0) | (k.args == 0)
}

#[tactic(auto, unfolding(crate::specs::Conditions::code_ok))]
fn code_ok(k: Class) -> bool
    ensures { result ≡ code_ok k }
{
    (1 <= k.code) & (k.code <= 256)
}

#[tactic(auto, unfolding(crate::specs::Conditions::limits_ok))]
fn limits_ok(c: u8, k: Class) -> bool
    ensures { result ≡ limits_ok c k }
{
    (k.args <= k.vars)
        & (k.vars <= 16)
        & (k.limit <= 16)
        & (k.fields <= 4)
        & main_ok(c, k)
        & code_ok(k)
}

#[tactic(auto, unfolding(crate::specs::Conditions::descriptor_ok))]
fn descriptor_ok(n: u8, r: &[u8], i: usize) -> bool
    ensures { result ≡ descriptor_ok n r.now i }
{
    let d = ground::byte(r, i);
    (d == 255) | (d < n)
}

#[tactic(auto, using(ground::proofs::Bounded::every), unfolding(crate::specs::Conditions::descriptors_ok))]
fn descriptors_ok(m: &Record) -> bool
    ensures { result ≡ descriptors_ok m.now.classes m.now.class m.now.bytes.now }
{
    for i in 0..m.class.args as usize + m.class.fields as usize {
        if !descriptor_ok(m.classes, m.bytes, i) {
            return false;
        }
    }
    true
}

#[tactic(auto, unfolding(ground::specs::Lists::first_broken, ground::specs::Chain::refuse))]
fn shape_at(b: &[u8], c: u8) -> Result<(), Refusal>
    ensures { found result ≡ searched b.now (shape_places c) }
{
    let m = bundle::record_at(b, c);
    if !limits_ok(c, m.class) {
        return Err(Refusal::Limits(c));
    }
    if !bundle::record_fits(b, m.class) {
        return Err(Refusal::Extent(c));
    }
    if !descriptors_ok(&m) {
        return Err(Refusal::Descriptors(c));
    }
    Ok(())
}

#[tactic(auto, using(verdicts::proofs::Numbers::searching, crate::proofs::FirstBroken::searching))]
fn shapes(b: &[u8]) -> Result<(), Refusal>
    ensures { found result ≡ searched b.now (each (classes b.now) shape_places) }
{
    for c in 0..bundle::classes(b) {
        shape_at(b, c)?;
    }
    Ok(())
}

// Verdicts 1 to 6: where these pass, every record can be read.
#[tactic(auto, using(verdicts::proofs::Numbers::searching, crate::proofs::FirstBroken::searching))]
fn layout(b: &[u8]) -> Result<(), Refusal>
    ensures { found result ≡ layout_of b.now }
{
    head(b)?;
    shapes(b)
}

// The field count of the class that an instruction's operand names; only getfield and putfield are asked for it.
fn named_fields(b: &[u8], x: Code) -> u8
    ensures { 13 ≤ x.opcode → result ≡ fields_of b.now (x.operand / 4) }
{
    if x.opcode < 13 {
        return 0;
    }
    bundle::class_at(b, x.operand / 4).fields
}

fn address_ok(b: &[u8], m: &Record, l: Addr) -> bool
    requires { m.now.classes ≡ classes b.now }
    ensures { result ≡ address_ok b.now m.now.class m.now.bytes.now l.0 }
{
    let x = m.code_at(l);
    instructions::instruction_ok(
        m.classes,
        named_fields(b, x),
        m.class.vars,
        m.class.code,
        l,
        x,
    )
}

#[tactic(auto, unfolding(crate::specs::Loops::table_at, ground::specs::Chain::refuse))]
fn table_at(b: &[u8], c: u8, m: &Record, i: u16) -> Result<(), Refusal>
    requires { (i < 65535) × (m.now.classes ≡ classes b.now) }
    ensures { found result ≡ table_at b.now c m.now.class m.now.bytes.now i }
{
    if !address_ok(b, m, Addr(i + 1)) {
        return Err(Refusal::Instruction(c, Addr(i + 1)));
    }
    Ok(())
}

#[tactic(auto, using(verdicts::proofs::Numbers::searching))]
fn table_of(b: &[u8], c: u8, m: &Record) -> Result<(), Refusal>
    requires { m.now.classes ≡ classes b.now }
    ensures { found result ≡ table_of b.now c m.now.class m.now.bytes.now }
{
    for i in 0..m.class.code {
        table_at(b, c, m, i)?;
    }
    Ok(())
}

#[tactic(auto, using(crate::proofs::FirstBroken::searching))]
fn table_of_class(b: &[u8], c: u8) -> Result<(), Refusal>
    ensures { found result ≡ searched b.now (table_places b.now c) }
{
    table_of(b, c, &bundle::record_at(b, c))
}

#[tactic(auto, using(verdicts::proofs::Numbers::searching, crate::proofs::FirstBroken::searching))]
fn tables(b: &[u8]) -> Result<(), Refusal>
    ensures { found result ≡ searched b.now (each (classes b.now) (table_places b.now)) }
{
    for c in 0..bundle::classes(b) {
        table_of_class(b, c)?;
    }
    Ok(())
}

// The first of verdicts 1 to 7 that the bundle draws; the class count where there is none.
#[tactic(auto, using(verdicts::proofs::Numbers::searching, crate::proofs::FirstBroken::searching))]
pub fn structure(b: &[u8]) -> Result<u8, Refusal>
    ensures { judgement result ≡ structure_of b.now }
{
    layout(b)?;
    tables(b)?;
    Ok(bundle::classes(b))
}

// The record of a class as a part of the caller's bundle, no copy; empty on verdicts 1 to 6 or where there is no such class.
#[tactic(auto, unfolding(crate::specs::Structure::record_of, crate::specs::Structure::record_place, ground::specs::Chain::refuse))]
pub fn record<'a>(b: &'a [u8], c: u8) -> &'a [u8]
    ensures { (result.now ≡ record_of b.now c) × Begins result b.entry (record_place b.now c) }
{
    if layout(b).is_err() {
        return &b[..0];
    }
    if bundle::classes(b) <= c {
        return &b[..0];
    }
    bundle::part_of(b, bundle::class_at(b, c))
}
