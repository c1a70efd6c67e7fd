// The output, line by line.
ghost use Rattle.std.specs.Prelude.{◌++◌, codes, OnOk};
ghost use Rattle.std.specs.Io.KnownBytes.{Appends};
ghost use Rattle.values.specs.Text.{slot_text};

use state::State;
use std::io;
use std::io::Write;
use threads::Thread;
use values::{Slot, Value};

// A blank and a value. The blank goes out in one write with the letter.
fn put_place<W: Write>(out: &mut W, place: Slot) -> io::Result<()>
    ensures { OnOk result (Appends (W.contents out.old) (W.contents out.new) (codes " " ++ slot_text place)) }
{
    match place.value {
        Value::Int(z) => write!(out, " i{z}"),
        Value::Ref(o) => write!(out, " r{o}"),
        Value::Null => write!(out, " null"),
    }
}

fn put_places(out: &mut impl Write, places: &[Slot]) -> io::Result<()> {
    for place in places {
        put_place(out, *place)?;
    }
    Ok(())
}

fn put_counts(out: &mut impl Write, counts: &[u16], thread: u8) -> io::Result<()> {
    for o in 0..32u8 {
        write!(out, " {}", state::count(counts, thread, o))?;
    }
    Ok(())
}

fn put_classes(out: &mut impl Write, classes: &[u8]) -> io::Result<()> {
    for class in classes {
        write!(out, " {class}")?;
    }
    Ok(())
}

fn put_head(out: &mut impl Write, i: u8, t: Thread) -> io::Result<()> {
    let live = t.live as u8;
    let class = t.class;
    let address = t.at.0;
    let depth = t.depth;
    write!(
        out,
        "thread {i} live {live} class {class} address {address} depth {depth}"
    )
}

fn put_values(out: &mut impl Write, t: Thread) -> io::Result<()> {
    write!(out, " vars")?;
    put_places(out, &t.vars)?;
    write!(out, " stack")?;
    put_places(out, &t.stack)
}

fn thread_line(
    out: &mut impl Write,
    i: u8,
    t: Thread,
    counts: &[u16],
    held: u32,
) -> io::Result<()> {
    put_head(out, i, t)?;
    put_values(out, t)?;
    write!(out, " counts")?;
    put_counts(out, counts, i)?;
    writeln!(out, " held {held}")
}

fn objects_line(out: &mut impl Write, objects: u8, classes: &[u8]) -> io::Result<()> {
    write!(out, "objects {objects} classes")?;
    put_classes(out, classes)?;
    writeln!(out)
}

fn fields_line(out: &mut impl Write, fields: &[Slot]) -> io::Result<()> {
    write!(out, "fields")?;
    put_places(out, fields)?;
    writeln!(out)
}

pub(crate) fn bad_line(out: &mut impl Write) -> io::Result<()> {
    writeln!(out, "bad input")
}

pub(crate) fn fresh_line(out: &mut impl Write, answer: u8) -> io::Result<()> {
    writeln!(out, "fresh {answer}")
}

pub(crate) fn given_line(out: &mut impl Write) -> io::Result<()> {
    writeln!(out, "given")
}

pub(crate) fn step_line(
    out: &mut impl Write,
    n: usize,
    thread: u8,
    answer: u8,
    fails: bool,
) -> io::Result<()> {
    write!(out, "step {n} thread {thread} answer {answer}")?;
    if fails {
        return writeln!(out, " fails");
    }
    writeln!(out)
}

pub(crate) fn state_lines(out: &mut impl Write, s: State) -> io::Result<()> {
    for i in 0..8u8 {
        let held = s.held[i as usize];
        thread_line(out, i, state::thread(s, i), &s.counts, held)?;
    }
    objects_line(out, s.objects, &s.classes)?;
    fields_line(out, &s.fields)
}
