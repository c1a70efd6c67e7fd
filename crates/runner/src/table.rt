// What a step needs of each class, read once; and the instruction at a place of the bundle.
ghost use Rattle.std.specs.Prelude.{◌≡◌, ◌+◌, ◌<◌, length};
ghost use Rattle.instructions.specs.Table.{decoded};
ghost use Rattle.bundle.specs.Container.{code_from};
ghost use Rattle.bundle.specs.Program.{method_of};
ghost use Rattle.memory.specs.Tab.{tab};
ghost use Rattle.runner.specs.Table.{first_word, row_of};

use bundle::Record;
use instructions::{Code, Instruction};

// A class's arguments and variables, where its first instruction stands in the bundle, and what the fields of a new object hold.
#[derive(Clone, Copy)]
pub(crate) struct Row {
    pub(crate) args: u8,
    pub(crate) vars: u8,
    pub(crate) code: usize,
    pub(crate) first: [u64; 4],
}

fn first_word(m: &Record, j: u8) -> u64
    ensures { result ≡ first_word (method_of m.now.class m.now.bytes.now) j }
{
    if j < m.class.fields && m.field_at(j) != 255 {
        return memory::words::NULL;
    }
    0
}

fn row_of(b: &[u8], c: u8) -> Row
    ensures { result ≡ row_of b.now c }
{
    let m = bundle::record_at(b, c);
    Row {
        args: m.class.args,
        vars: m.class.vars,
        code: m.class.offset as usize + (m.class.args as usize + m.class.fields as usize),
        first: [
            first_word(&m, 0),
            first_word(&m, 1),
            first_word(&m, 2),
            first_word(&m, 3),
        ],
    }
}

pub(crate) fn table_of(b: &[u8]) -> [Row; 8]
    ensures { result ≡ tab 8 (row_of b.now) }
{
    let mut next = [row_of(b, 0); 8];
    for c in 1..8u8 {
        next[c as usize] = row_of(b, c);
    }
    next
}

pub(crate) fn instruction_from(b: &[u8], p: usize) -> Instruction
    requires { p + 3 < length b.now }
    ensures { result ≡ decoded (code_from b.now p) }
{
    let x = Code {
        opcode: b[p],
        operand: b[p + 1],
        address: ground::join(b[p + 2], b[p + 3]),
    };
    instructions::instruction_of(x)
}
