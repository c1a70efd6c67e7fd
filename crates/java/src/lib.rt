// Document 02, Q-9: one instruction of Java's, as it stands in a method's code.
#![tactic(auto)]

mod steps;

ghost use Rattle.std.specs.Prelude.{◌≡◌, ◌<◌};
ghost use Rattle.ground.specs.Bounded.{Told};
ghost use Rattle.java.specs.Opcodes.{aload_of, iinc_of, java_of, width_of, lock_bytes};
ghost use Rattle.java.specs.Instructions.{java_at, size_at, gives_of};
ghost use Rattle.java.specs.Classes.{is_index, class_number, known};

pub use steps::{Placed, Steps, walk};

// An instruction that is taken; Enter and Exit are an aload with its lock instruction.
#[derive(Clone, Copy)]
pub enum Java {
    Nop,
    Pop,
    Iconst0,
    // iload or aload.
    Load(u8),
    // istore or astore.
    Store(u8),
    // The distance to its target, two bytes in two's complement.
    Ifne(u16),
    Enter(u8),
    Exit(u8),
    // The class's index in the constant pool.
    New(u16),
    Athrow,
    Return,
    // By 1.
    Iinc(u8),
    // Not taken, or cut off.
    Other,
}

// An instruction and the bytes that it takes.
#[derive(Clone, Copy)]
pub struct Read {
    pub java: Java,
    pub size: usize,
}

fn aload(v: u8, next: u8) -> Java
    ensures { result ≡ aload_of v next }
{
    if next == 194 {
        return Java::Enter(v);
    }
    if next == 195 {
        return Java::Exit(v);
    }
    Java::Load(v)
}

fn iinc(v: u8, by: u8) -> Java
    ensures { result ≡ iinc_of v by }
{
    if by == 1 {
        return Java::Iinc(v);
    }
    Java::Other
}

fn java_of(op: u8, x: u8, y: u8) -> Java
    ensures { result ≡ java_of op x y }
{
    match op {
        0 => Java::Nop,
        87 => Java::Pop,
        3 => Java::Iconst0,
        21 => Java::Load(x),
        26 => Java::Load(0),
        27 => Java::Load(1),
        28 => Java::Load(2),
        29 => Java::Load(3),
        25 => aload(x, y),
        42 => aload(0, x),
        43 => aload(1, x),
        44 => aload(2, x),
        45 => aload(3, x),
        54 => Java::Store(x),
        59 => Java::Store(0),
        60 => Java::Store(1),
        61 => Java::Store(2),
        62 => Java::Store(3),
        58 => Java::Store(x),
        75 => Java::Store(0),
        76 => Java::Store(1),
        77 => Java::Store(2),
        78 => Java::Store(3),
        154 => Java::Ifne(ground::join(x, y)),
        187 => Java::New(ground::join(x, y)),
        191 => Java::Athrow,
        177 => Java::Return,
        132 => iinc(x, y),
        _ => Java::Other,
    }
}

fn width(op: u8) -> usize
    ensures { result ≡ width_of op }
{
    if (op == 21) | (op == 25) | (op == 54) | (op == 58) {
        return 2;
    }
    if (op == 154) | (op == 187) | (op == 132) {
        return 3;
    }
    1
}

fn lock_bytes(j: Java) -> usize
    ensures { result ≡ lock_bytes j }
{
    match j {
        Java::Enter(_) | Java::Exit(_) => 1,
        _ => 0,
    }
}

// Instruction and size at once, so that a walk decodes each instruction once.
pub fn read_at(code: &[u8], p: usize) -> Read
    ensures { (result.java ≡ java_at code.now p) × (result.size ≡ size_at code.now p) }
{
    if code.len() <= p {
        return Read {
            java: Java::Other,
            size: 1,
        };
    }
    let op = code[p];
    let j = java_of(op, ground::byte(code, p + 1), ground::byte(code, p + 2));
    let size = width(op) + lock_bytes(j);
    if code.len() - p < size {
        return Read {
            java: Java::Other,
            size: 1,
        };
    }
    Read {
        java: j,
        size: size,
    }
}

// How many instructions are written for it.
pub fn gives(j: Java) -> usize
    ensures { result ≡ gives_of j }
{
    match j {
        Java::Nop | Java::Other => 0,
        Java::Iinc(_) => 3,
        _ => 1,
    }
}

fn is_index(classes: &[u8], index: u16, i: usize) -> bool
    requires { i < 8 }
    ensures { result ≡ is_index classes.now index i }
{
    (2 * i + 1 < classes.len()) & (ground::word(classes, 2 * i) == index)
}

// The number of the class with this index.
pub fn class_number(classes: &[u8], index: u16) -> Option<u8>
    ensures { Told 8 (class_number classes.now index) result }
{
    for c in 0..8u8 {
        if is_index(classes, index, c as usize) {
            return Some(c);
        }
    }
    None
}

pub fn known(classes: &[u8], j: Java) -> bool
    ensures { result ≡ known classes.now j }
{
    match j {
        Java::New(i) => class_number(classes, i).is_some(),
        Java::Other => false,
        _ => true,
    }
}
