// The verifier: document 01's verdict on every byte string, the first broken rule in the document's order.
#![tactic(auto)]

ghost use Rattle.std.specs.Prelude.{◌≡◌, ◌<◌};
ghost use Rattle.bundle.specs.Program.{program_of};
ghost use Rattle.bundle.specs.Container.{classes};
ghost use Rattle.ground.specs.Lists.{each};
ghost use Rattle.verdicts.specs.Numbers.{found, judgement};
ghost use Rattle.verifier.specs.Places.{form_places, rule_places};
ghost use Rattle.verifier.specs.Verdict.{verdict_of};
ghost use Rattle.verifier.specs.Loops.{searched, form_at, forms_of, rule_verdict, rules_of};

use bundle::Record;
use instructions::Addr;
use verdicts::Refusal;

#[tactic(auto, unfolding(crate::specs::Loops::form_at, ground::specs::Chain::refuse))]
fn form_at(c: u8, m: &Record, i: u16) -> Result<(), Refusal>
    requires { i < 65535 }
    ensures { found result ≡ form_at m.now.classes c m.now.class m.now.bytes.now i }
{
    if !forms::row_formed(m, Addr(i + 1)) {
        return Err(Refusal::Form(c, Addr(i + 1)));
    }
    Ok(())
}

#[tactic(auto, using(verdicts::proofs::Numbers::searching))]
fn forms_search(c: u8, m: &Record) -> Result<(), Refusal>
    ensures { found result ≡ forms_of m.now.classes c m.now.class m.now.bytes.now }
{
    for i in 0..m.class.code {
        form_at(c, m, i)?;
    }
    Ok(())
}

// Most often all rows are formed, and then no first one is searched that isn't.
#[tactic(auto, using(crate::proofs::Formed::formed))]
fn forms_of(c: u8, m: &Record) -> Result<(), Refusal>
    ensures { found result ≡ forms_of m.now.classes c m.now.class m.now.bytes.now }
{
    if forms::rows_formed(m) {
        return Ok(());
    }
    forms_search(c, m)
}

#[tactic(auto, using(crate::proofs::FirstBroken::searching))]
fn forms_of_class(b: &[u8], c: u8) -> Result<(), Refusal>
    ensures { found result ≡ searched b.now (form_places b.now c) }
{
    forms_of(c, &bundle::record_at(b, c))
}

// Verdict 8 over all classes and addresses: the first malformed row's.
#[tactic(auto, using(verdicts::proofs::Numbers::searching, crate::proofs::FirstBroken::searching))]
pub fn forms_of_all(b: &[u8]) -> Result<(), Refusal>
    ensures { found result ≡ searched b.now (each (classes b.now) (form_places b.now)) }
{
    for c in 0..bundle::classes(b) {
        forms_of_class(b, c)?;
    }
    Ok(())
}

fn rule_verdict(b: &[u8], c: u8, m: &Record, i: u16) -> Result<(), Refusal>
    requires { i < 65535 }
    ensures { found result ≡ rule_verdict (program_of b.now) m.now.classes c m.now.class m.now.bytes.now i }
{
    let l = Addr(i + 1);
    rules::rule_of(b, m, l, m.code_at(l)).map_err(|why| Refusal::Rule(c, l, why))
}

#[tactic(auto, using(verdicts::proofs::Numbers::searching), unfolding(crate::specs::Loops::rules_of, ground::specs::Chain::refuse))]
fn rules_of(b: &[u8], c: u8, m: &Record) -> Result<(), Refusal>
    ensures { found result ≡ rules_of (program_of b.now) m.now.classes c m.now.class m.now.bytes.now }
{
    if !forms::first_row(m) {
        return Err(Refusal::FirstRow(c));
    }
    for i in 0..m.class.code {
        rule_verdict(b, c, m, i)?;
    }
    Ok(())
}

#[tactic(auto, using(crate::proofs::FirstBroken::searching))]
fn rules_of_class(b: &[u8], c: u8) -> Result<(), Refusal>
    ensures { found result ≡ searched b.now (rule_places b.now c) }
{
    rules_of(b, c, &bundle::record_at(b, c))
}

#[tactic(auto, using(verdicts::proofs::Numbers::searching, crate::proofs::FirstBroken::searching))]
fn rules_of_all(b: &[u8]) -> Result<(), Refusal>
    ensures { found result ≡ searched b.now (each (classes b.now) (rule_places b.now)) }
{
    for c in 0..bundle::classes(b) {
        rules_of_class(b, c)?;
    }
    Ok(())
}

// All places.
#[tactic(auto, using(verdicts::proofs::Numbers::searching, crate::proofs::FirstBroken::searching))]
fn judge(b: &[u8]) -> Result<u8, Refusal>
    ensures { judgement result ≡ verdict_of b.now }
{
    structure::structure(b)?;
    forms_of_all(b)?;
    rules_of_all(b)?;
    Ok(bundle::classes(b))
}

// The verdict on a bundle. The bundle is never written. What its last bytes tell is asked for first, and then nothing is called.
#[tactic(auto, using(verdicts::proofs::Numbers::searching, structure::proofs::FirstBroken::searching, crate::proofs::FirstBroken::searching))]
pub fn verify(b: &[u8]) -> Result<u8, Refusal>
    ensures { judgement result ≡ verdict_of b.now }
{
    structure::head(b)?;
    judge(b)
}
