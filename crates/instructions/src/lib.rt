// The instruction table of document 01: an instruction from its bytes, and whether it keeps to the table.
#![tactic(auto)]

ghost use Rattle.std.specs.Prelude.{◌≡◌, ℕ, ◌≤◌, ◌<◌, ◌/◌};
ghost use Rattle.instructions.specs.Table.{line_of, decoded, table_ok, last_ok, instruction_ok};
ghost use Rattle.instructions.specs.Limits.{operand_limit, address_reach};

// An address of a method, from 1; as a handler, 0 is none.
#[derive(Clone, Copy, PartialEq, Eq)]
pub struct Addr(pub u16);

// The number of a local variable, from 0.
#[derive(Clone, Copy)]
pub struct Var(pub u8);

// An instruction as it stands in a record: four bytes.
#[derive(Clone, Copy)]
pub struct Code {
    pub opcode: u8,
    pub operand: u8,
    pub address: u16,
}

#[derive(Clone, Copy)]
pub enum Instruction {
    Inc,
    Pop,
    Push0,
    Load(Var),
    Store(Var),
    If(Addr),
    Enter(Var, Addr),
    Exit(Var),
    New(u8, Addr),
    Start(u8),
    Throw(Addr),
    Return,
    Get(u8, u8, Addr),
    Put(u8, u8, Addr),
    // Of an opcode that is not in the table. The definition `decoded` has it, and the theorems on machine and rules stand on that.
    Nothing,
}

// By the opcode alone: a bundle whose operands and addresses are not as the table says draws 7, and is never run.
pub fn instruction_of(x: Code) -> Instruction
    ensures { result ≡ decoded x }
{
    let opcode = x.opcode;
    match opcode {
        1 => Instruction::Inc,
        2 => Instruction::Pop,
        3 => Instruction::Push0,
        4 => Instruction::Load(Var(x.operand)),
        5 => Instruction::Store(Var(x.operand)),
        6 => Instruction::If(Addr(x.address)),
        7 => Instruction::Enter(Var(x.operand), Addr(x.address)),
        8 => Instruction::Exit(Var(x.operand)),
        9 => Instruction::New(x.operand, Addr(x.address)),
        10 => Instruction::Start(x.operand),
        11 => Instruction::Throw(Addr(x.address)),
        12 => Instruction::Return,
        13 => Instruction::Get(x.operand / 4, x.operand % 4, Addr(x.address)),
        14 => Instruction::Put(x.operand / 4, x.operand % 4, Addr(x.address)),
        _ => Instruction::Nothing,
    }
}

// What is below this keeps to the line of an opcode up to 12, as an operand: nothing where there is no such line, 0, a variable, a class. Two reads in place of a jump by the opcode, which is hard to guess.
fn operand_limit(classes: u8, vars: u8, opcode: u8) -> u8
    ensures { result ≡ operand_limit classes vars opcode }
{
    let kinds: [u8; 16] = [0, 1, 1, 1, 2, 2, 1, 2, 2, 3, 3, 1, 1, 0, 0, 0];
    let limits: [u8; 4] = [0, 1, vars, classes];
    limits[(kinds[(opcode % 16) as usize] % 4) as usize]
}

// The greatest address of a line: 0, or k for a target and a handler. No table of sixteen is laid out for each instruction.
fn address_reach(code: u16, opcode: u8) -> u16
    ensures { result ≡ address_reach code opcode }
{
    let line = opcode % 16;
    if (line == 6) | (line == 7) | (line == 9) | (line == 11) {
        return code;
    }
    0
}

// The lines up to 12; a target is not 0.
fn plain_ok(classes: u8, vars: u8, code: u16, x: Code) -> bool
    requires { x.opcode < 13 }
    ensures { (fields : ℕ → ℕ) → result ≡ table_ok classes fields vars code x }
{
    (x.operand < operand_limit(classes, vars, x.opcode))
        & (x.address <= address_reach(code, x.opcode))
        & ((x.opcode != 6) | (x.address != 0))
}

// The lines 13 and 14; `named` is the field count of the class that the operand names.
fn field_ok(classes: u8, named: u8, code: u16, x: Code) -> bool
    requires { 13 ≤ x.opcode }
    ensures { (vars : ℕ) (fields : ℕ → ℕ) → named ≡ fields (x.operand / 4) → result ≡ table_ok classes fields vars code x }
{
    (x.opcode <= 14) & ((x.operand / 4 < classes) & (x.operand % 4 < named)) & (x.address <= code)
}

// The table is held against the four bytes themselves, so that no instruction is made only to be looked at.
fn table_ok(classes: u8, named: u8, vars: u8, code: u16, x: Code) -> bool
    ensures { (fields : ℕ → ℕ) → (13 ≤ x.opcode → named ≡ fields (x.operand / 4)) → result ≡ table_ok classes fields vars code x }
{
    if x.opcode < 13 {
        return plain_ok(classes, vars, code, x);
    }
    field_ok(classes, named, code, x)
}

fn ends_code(opcode: u8) -> bool
    ensures { result ≡ (line_of opcode).ends }
{
    match opcode {
        11 => true,
        12 => true,
        _ => false,
    }
}

fn last_ok(code: u16, l: Addr, x: Code) -> bool
    ensures { result ≡ last_ok code l.0 x }
{
    if l.0 != code {
        return true;
    }
    ends_code(x.opcode)
}

// Document 01's verdict 7 at address l of a method, in a bundle where the class that a field's operand names has so many fields.
pub fn instruction_ok(classes: u8, named: u8, vars: u8, code: u16, l: Addr, x: Code) -> bool
    ensures { (fields : ℕ → ℕ) → (13 ≤ x.opcode → named ≡ fields (x.operand / 4)) → result ≡ instruction_ok classes fields vars code l.0 x }
{
    if !table_ok(classes, named, vars, code, x) {
        return false;
    }
    last_ok(code, l, x)
}
