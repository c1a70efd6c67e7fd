// What one instruction does to the thread that runs it, or why it cannot. A turn is made without the state, which each function that takes it copies.
#![tactic(auto)]

mod ends;
pub mod fields;
mod locks;
mod moves;
mod stack;
mod starts;

ghost use Rattle.std.specs.Prelude.{◌≡◌, ◌<◌};
ghost use Rattle.bundle.specs.Program.{Method, program_of};
ghost use Rattle.state.specs.declared.State.{State};
ghost use Rattle.turns.specs.Numbers.{answer_number};
ghost use Rattle.turns.specs.Exec.{exec_of, turn_of};
ghost use Rattle.turns.specs.Turns.{turned};

use bundle::Class;
use instructions::Instruction;
use state::State;
use threads::Thread;
use values::Slot;

// How a step goes: the three that change the state, the two that wait, and why a step cannot be.
#[derive(Clone, Copy)]
pub enum Answer {
    WentOn,
    Returned,
    Uncaught,
    // Another thread holds the object.
    Taken,
    // Eight threads live.
    Crowded,
    NotLive,
    StackShort,
    StackFull,
    WrongKind,
    NotHeld,
    StillHolds,
    CountFull,
    BadBundle,
    BadState,
}

impl Answer {
    // Its number in document 01's table.
    pub fn number(self) -> u8
        ensures { result ≡ answer_number self }
    {
        match self {
            Answer::WentOn => 0,
            Answer::Returned => 1,
            Answer::Uncaught => 2,
            Answer::Taken => 3,
            Answer::Crowded => 4,
            Answer::NotLive => 5,
            Answer::StackShort => 11,
            Answer::StackFull => 12,
            Answer::WrongKind => 13,
            Answer::NotHeld => 14,
            Answer::StillHolds => 15,
            Answer::CountFull => 16,
            Answer::BadBundle => 17,
            Answer::BadState => 18,
        }
    }
}

// How a step went, and the state: all answers but the first three give it back as given. The state comes first, with no gap before it.
#[derive(Clone, Copy)]
pub struct Stepped {
    pub state: State,
    pub answer: Answer,
}

// What a turn reads of the state beside its thread: how many objects there are, the counts, the objects' classes. `number` is the thread's.
#[derive(Clone, Copy)]
pub struct View<'a> {
    pub objects: u8,
    pub counts: &'a [u16],
    pub classes: &'a [u8],
    pub number: u8,
}

// What changes in the state beside the thread that takes its turn.
#[derive(Clone, Copy)]
pub enum Change {
    // Nothing else.
    Alone,
    // Its count of an object.
    Count(u8, u16),
    // There is one object more, of the class.
    Object(u8),
    // A field of an object.
    Field(u8, u8, Slot),
    // Nothing else, but its top becomes what a field of an object holds.
    Top(u8, u8),
    // A thread of the class begins, with so many arguments.
    Begin(u8, u8),
}

// One turn of a thread: how it goes on, the answer, and what else changes. A turn that cannot be is the answer alone: neither the thread nor the state changes.
#[derive(Clone, Copy)]
pub struct Turn {
    pub thread: Thread,
    pub answer: Answer,
    pub change: Change,
}

fn exec(
    b: &[u8],
    view: &View,
    t: Thread,
    k: Class,
    x: Instruction,
    fails: bool,
) -> Result<Turn, Answer>
    requires { t.at.0 < 65535 }
    ensures { (m : Method) (s : State) → m.limit ≡ k.limit → m.vars ≡ k.vars → s.objects ≡ view.now.objects → s.counts ≡ view.now.counts.now → s.classes ≡ view.now.classes.now → turned (program_of b.now) s view.now.number t result ≡ exec_of (program_of b.now) s view.now.number t m fails x }
{
    match x {
        Instruction::Inc => stack::inc_turn(t),
        Instruction::Pop => stack::pop_turn(t),
        Instruction::Push0 => stack::push0_turn(t, k.limit),
        Instruction::Load(v) => stack::load_turn(t, k.limit, v),
        Instruction::Store(v) => stack::store_turn(t, v),
        Instruction::If(a) => stack::if_turn(t, a),
        Instruction::Enter(v, h) => locks::enter_turn(view, t, k, v, h),
        Instruction::Exit(v) => locks::exit_turn(view, t, v),
        Instruction::New(c, h) => ends::new_turn(view, t, k, c, h, fails),
        Instruction::Start(c) => starts::start_class(b, view.classes, t, c),
        Instruction::Throw(h) => ends::athrow_turn(view, t, k, bundle::exception(b), h),
        Instruction::Return => ends::end_turn(view, t, k.vars, Answer::Returned),
        Instruction::Get(c, f, h) => fields::get_turn(view, t, k, c, f, h),
        Instruction::Put(c, f, h) => fields::put_turn(
            view,
            t,
            k,
            c,
            bundle::record_at(b, c).field_at(f),
            f,
            h,
        ),
        Instruction::Nothing => Err(Answer::BadBundle),
    }
}

pub fn turn_of(b: &[u8], view: &View, t: Thread, fails: bool) -> Result<Turn, Answer>
    ensures { (s : State) → s.objects ≡ view.now.objects → s.counts ≡ view.now.counts.now → s.classes ≡ view.now.classes.now → turned (program_of b.now) s view.now.number t result ≡ turn_of (program_of b.now) s view.now.number t fails }
{
    if !t.live {
        return Err(Answer::NotLive);
    }
    if 65535 <= t.at.0 {
        return Err(Answer::BadBundle);
    }
    let m = bundle::record_at(b, t.class);
    exec(b, view, t, m.class, m.instruction_at(t.at), fails)
}
