// What is written: the rows of each instruction, one after another.
ghost use Rattle.std.specs.Prelude.{◌≡◌, ◌+◌, ◌*◌, ◌≤◌, ◌<◌, length, get_or};
ghost use Rattle.ground.specs.Bounded.{fill_from};
ghost use Rattle.java.specs.Instructions.{size_at, gives_of};
ghost use Rattle.offsets.specs.Offsets.{total};
ghost use Rattle.classfile.specs.Starts.{Starts, Prepared, address_by};
ghost use Rattle.classfile.specs.Written.{row, handler_by, rows_of, row_bytes, bytes_of, laid_at, laid_over};
ghost use Rattle.classfile.specs.Taking.{bytes_taken};

use instructions::Code;
use java::{Java, Placed};

// What the rows are made of; of each of the `all` rows, the offset of the instruction that it is written for.
#[derive(Clone, Copy)]
struct Method<'a> {
    classes: &'a [u8],
    code: &'a [u8],
    table: &'a [u8],
    starts: &'a [usize],
    all: usize,
}

// n rows from row k on come from offset p.
fn mark(starts: &mut [usize], k: usize, n: usize, p: usize)
    requires { k + n ≤ length starts.old }
    ensures { starts.new ≡ fill_from k n p starts.old }
{
    for i in 0..n {
        starts[k + i] = p;
    }
}

fn find_starts(code: &[u8], starts: &mut [usize])
    requires { total code.now ≤ length starts.old }
    ensures { Starts code.now starts.new (total code.now) }
{
    let mut k = 0;
    for x in java::walk(code) {
        let n = java::gives(x.java);
        mark(starts, k, n, x.at);
        k += n;
    }
}

fn address(m: &Method, t: usize) -> u16
    requires { (m.now.all ≤ 256) × (m.now.all ≤ length m.now.starts.now) }
    ensures { result ≡ address_by m.now.starts.now m.now.all t }
{
    for k in 0..m.all {
        if t <= m.starts[k] {
            return (k + 1) as u16;
        }
    }
    (m.all + 1) as u16
}

fn handler_for(m: &Method, offset: usize) -> u16
    requires { (m.now.all ≤ 256) × (m.now.all ≤ length m.now.starts.now) }
    ensures { result ≡ handler_by (address_by m.now.starts.now m.now.all) m.now.table.now offset }
{
    match offsets::covered_by(m.table, offset) {
        Some(i) => address(m, offsets::handler_at(m.table, i) as usize),
        None => 0,
    }
}

fn row(opcode: u8, operand: u8, address: u16) -> Code
    ensures { result ≡ row opcode operand address }
{
    Code {
        opcode: opcode,
        operand: operand,
        address: address,
    }
}

// The row written for an instruction, the first of them for an iinc.
#[tactic(auto, unfolding(crate::specs::Written::rows_of))]
fn row_of(m: &Method, x: Placed) -> Code
    requires { Prepared m.now × (x.at < length m.now.code.now) × (x.size ≡ size_at m.now.code.now x.at) }
    ensures { result ≡ get_or (rows_of m.now.classes.now m.now.code.now m.now.table.now x.at x.java) 0 (row 0 0 0) }
{
    match x.java {
        Java::Nop | Java::Other => row(0, 0, 0),
        Java::Pop => row(2, 0, 0),
        Java::Iconst0 => row(3, 0, 0),
        Java::Load(v) | Java::Iinc(v) => row(4, v, 0),
        Java::Store(v) => row(5, v, 0),
        Java::Ifne(d) => row(6, 0, address(m, offsets::target(m.code, x.at, d))),
        Java::Enter(v) => row(7, v, handler_for(m, x.at + x.size - 1)),
        Java::Exit(v) => row(8, v, 0),
        Java::New(i) => row(
            9,
            java::class_number(m.classes, i).unwrap_or(8),
            handler_for(m, x.at),
        ),
        Java::Athrow => row(11, 0, handler_for(m, x.at)),
        Java::Return => row(12, 0, 0),
    }
}

fn put(out: &mut [u8], k: usize, x: Code)
    requires { 4 * k + 4 ≤ length out.old }
    ensures { out.new ≡ laid_at (4 * k) (row_bytes x) out.old }
{
    let a = x.address;
    out[4 * k] = x.opcode;
    out[4 * k + 1] = x.operand;
    out[4 * k + 2] = (a / 256) as u8;
    out[4 * k + 3] = (a % 256) as u8;
}

// The rows of an instruction, from row k of the buffer on.
fn put_rows(m: &Method, x: Placed, k: usize, out: &mut [u8])
    requires { Prepared m.now × (x.at < length m.now.code.now) × (x.size ≡ size_at m.now.code.now x.at) × (k + gives_of x.java ≤ m.now.all) × (4 * m.now.all ≤ length out.old) }
    ensures { out.new ≡ laid_at (4 * k) (bytes_of (rows_of m.now.classes.now m.now.code.now m.now.table.now x.at x.java)) out.old }
{
    let n = java::gives(x.java);
    if n == 0 {
        return;
    }
    let first = row_of(m, x);
    put(out, k, first);
    if n == 1 {
        return;
    }
    put(out, k + 1, row(1, 0, 0));
    put(out, k + 2, row(5, first.operand, 0));
}

fn put_all(m: &Method, out: &mut [u8])
    requires { Prepared m.now × (4 * m.now.all ≤ length out.old) }
    ensures { out.new ≡ laid_over (bytes_taken m.now.classes.now m.now.code.now m.now.table.now) out.old }
{
    let mut k = 0;
    for x in java::walk(m.code) {
        put_rows(m, x, k, out);
        k += java::gives(x.java);
    }
}

// All rows, where they are no more than 256 and the buffer has room for them.
pub(crate) fn write(classes: &[u8], code: &[u8], table: &[u8], out: &mut [u8])
    requires { (total code.now ≤ 256) × (4 * total code.now ≤ length out.old) }
    ensures { out.new ≡ laid_over (bytes_taken classes.now code.now table.now) out.old }
{
    let mut starts = [0usize; 256];
    find_starts(code, &mut starts);
    let m = Method {
        classes: classes,
        code: code,
        table: table,
        starts: &starts,
        all: offsets::total(code),
    };
    put_all(&m, out);
}
