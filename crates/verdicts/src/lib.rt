// Why a bundle is refused, and the numbers that the document has for it.
#![tactic(auto)]

ghost use Rattle.std.specs.Prelude.{◌≡◌};
ghost use Rattle.verdicts.specs.Numbers.{why_number, numbers, judgement};
ghost use Rattle.verdicts.specs.Verdicts.{verdict};
ghost use Rattle.verdicts.specs.declared.Why.TheVariants.{Misfit};

use entries::Short;
use instructions::Addr;

// Why a rule fails: what it asks is not there, or an entry falls short of its place.
#[derive(Clone, Copy)]
pub enum Why {
    Unmet,
    Misfit(Short),
}

impl From<Short> for Why {
    ghost from_gives = { λ s w. w ≡ Misfit s };

    fn from(s: Short) -> Why {
        Why::Misfit(s)
    }
}

// The broken rule, with the class and the address that it names.
#[derive(Clone, Copy)]
pub enum Refusal {
    Length,
    Trailer,
    Directory,
    Limits(u8),
    Extent(u8),
    Descriptors(u8),
    Instruction(u8, Addr),
    Form(u8, Addr),
    Rule(u8, Addr, Why),
    FirstRow(u8),
    // No pairs are accepted.
    NoPairs,
    // Records have bytes in common.
    Overlap,
    // The output is too short for what is to be written.
    Room,
    // A lock is taken against the order of the levels.
    Order(u8, Addr),
    // There are not eight levels.
    Levels,
    // What a weaver gives is not as long as its numbers say.
    Given,
}

// The document's number, class and address, and why a 9's rule fails; 0 is accepted, with the class count. C calls give it packed, and the definitions speak of it.
#[derive(Clone, Copy)]
pub struct Verdict {
    pub number: u8,
    pub class: u8,
    pub address: u16,
    pub why: u8,
}

impl Why {
    pub fn number(self) -> u8
        ensures { result ≡ why_number self }
    {
        match self {
            Why::Unmet => 0,
            Why::Misfit(short) => short.number(),
        }
    }
}

fn of_bundle(number: u8) -> Verdict
    ensures { result ≡ verdict number 0 0 }
{
    of_class(number, 0)
}

fn of_class(number: u8, class: u8) -> Verdict
    ensures { result ≡ verdict number class 0 }
{
    of_address(number, class, Addr(0))
}

fn of_address(number: u8, class: u8, at: Addr) -> Verdict
    ensures { result ≡ verdict number class at.0 }
{
    Verdict {
        number,
        class,
        address: at.0,
        why: 0,
    }
}

impl Refusal {
    // What is told of it in numbers.
    pub fn numbers(self) -> Verdict
        ensures { result ≡ numbers self }
    {
        match self {
            Refusal::Length => of_bundle(1),
            Refusal::Trailer => of_bundle(2),
            Refusal::Directory => of_bundle(3),
            Refusal::Limits(c) => of_class(4, c),
            Refusal::Extent(c) => of_class(5, c),
            Refusal::Descriptors(c) => of_class(6, c),
            Refusal::Instruction(c, l) => of_address(7, c, l),
            Refusal::Form(c, l) => of_address(8, c, l),
            Refusal::Rule(c, l, why) => Verdict {
                number: 9,
                class: c,
                address: l.0,
                why: why.number(),
            },
            Refusal::FirstRow(c) => of_class(10, c),
            Refusal::NoPairs => of_bundle(22),
            Refusal::Overlap => of_bundle(23),
            Refusal::Room => of_bundle(24),
            Refusal::Order(c, l) => of_address(25, c, l),
            Refusal::Levels => of_bundle(26),
            Refusal::Given => of_bundle(27),
        }
    }
}

// A judgement, which is the class count or a refusal, in numbers.
pub fn in_numbers(judged: Result<u8, Refusal>) -> Verdict
    ensures { result ≡ judgement judged }
{
    match judged {
        Ok(classes) => of_class(0, classes),
        Err(refusal) => refusal.numbers(),
    }
}
