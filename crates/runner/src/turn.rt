// One step of a thread, in place.
ghost use Rattle.std.specs.Prelude.{◌≡◌, ◌%◌, leb};
ghost use Rattle.turns.specs.Numbers.{answer_number};
ghost use Rattle.runner.specs.Poised.{here_of, instruction_here, Running, Poised, Turned};

use crate::running::{Here, Memory};
use crate::table::Row;
use crate::{fields, locks, objects, starts, table};
use instructions::Instruction;
use turns::Answer;

// Where a live thread takes its step, and the instruction there.
fn stand(b: &[u8], table: &[Row; 8], m: &Memory, i: usize) -> (Here, Instruction)
    requires { Poised b.now table.now m.now i }
    ensures here { result.0 ≡ here_of b.now m.now i }
    ensures instruction { result.1 ≡ instruction_here b.now m.now i }
{
    let q = m.frames[i].class() as usize;
    let at = m.frames[i].address();
    let here = Here {
        thread: i,
        vars: table[q].vars,
        next: at + 1,
    };
    (
        here,
        table::instruction_from(b, table[q].code + 4 * (at as usize - 1)),
    )
}

// What a fault would test is known here.
fn exec(b: &[u8], table: &[Row; 8], m: &mut Memory, i: usize, fails: bool) -> Answer
    requires { Poised b.now table.now m.old i }
    ensures { Turned b.now m.old m.new (answer_number result) i fails }
{
    let (here, x) = stand(b, table, m, i);
    match x {
        Instruction::Inc => {
            m.frames[i].inc(here.next);
            Answer::WentOn
        }
        Instruction::Pop => {
            m.frames[i].pop(here.next);
            Answer::WentOn
        }
        Instruction::Push0 => {
            m.frames[i].push(0, here.next);
            Answer::WentOn
        }
        Instruction::Load(v) => {
            m.frames[i].load(v, here.next);
            Answer::WentOn
        }
        Instruction::Store(v) => {
            m.frames[i].store(v, here.next);
            Answer::WentOn
        }
        Instruction::If(a) => {
            m.frames[i].branch(a, here.next);
            Answer::WentOn
        }
        Instruction::Enter(v, h) => locks::enter(m, here, v, h),
        Instruction::Exit(v) => {
            locks::exit(m, here, v);
            Answer::WentOn
        }
        Instruction::New(c, h) => objects::new(m, here, fails, c, &table[c as usize].first, h),
        Instruction::Start(c) => starts::start(m, here, table[c as usize].args, c),
        Instruction::Throw(h) => {
            let w = m.frames[i].top();
            m.throw(here, h, w)
        }
        Instruction::Return => {
            m.frames[i].end(here.vars);
            Answer::Returned
        }
        Instruction::Get(_, f, h) => fields::get(m, here, f, h),
        Instruction::Put(_, f, h) => fields::put(m, here, f, h),
        // Never met: verdict 7 refuses it.
        Instruction::Nothing => Answer::WentOn,
    }
}

// The step that a schedule byte asks for.
pub(crate) fn turn(b: &[u8], table: &[Row; 8], m: &mut Memory, x: u8) -> Answer
    requires { Running b.now table.now m.old }
    ensures { Turned b.now m.old m.new (answer_number result) (x % 8) (leb 128 x) }
{
    let i = (x % 8) as usize;
    if !m.frames[i].live() {
        return Answer::NotLive;
    }
    exec(b, table, m, i, 128 <= x)
}
