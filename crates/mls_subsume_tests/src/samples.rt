//! Small schemes as texts, and what `subsumes` answers of them.
ghost use Rattle.std.specs.Prelude.{IfOk};
ghost use Rattle.mls_automaton.specs.Models.{IsDeterministic};
ghost use Rattle.mls_automaton.specs.Schemes.{IsScheme};

use mls_automaton::automaton::HeadKind;
use mls_automaton::sample::scheme_of;
use mls_automaton::scheme::Scheme;
use mls_base::memory::Memory;
use mls_subsume::subsume::subsumes;
use mls_subsume::verdict::{Path, Reason, Step, Verdict};
use std::alloc::Global;
use std::process::Abort;

// The scheme of a text, which is one, and deterministic.
fn sample(rt: &impl Abort, alloc: Global, text: &str) -> Result<Scheme, Memory>
    ensures scheme { IfOk result IsScheme }
    ensures deterministic { IfOk result (λ s. IsDeterministic s.automaton) }
{
    match scheme_of(alloc, text)? {
        Some(scheme) => {
            assert!(rt; scheme.automaton.is_deterministic());
            Ok(scheme)
        }
        None => panic!(rt; "no scheme: {text}"),
    }
}

fn show_steps(line: &mut String, path: &Path) -> Result<(), Memory> {
    line.push_str("root")?;
    for step in path.steps.as_slice() {
        match step {
            Step::Domain => line.push_str(".dom")?,
            Step::Codomain => line.push_str(".cod")?,
            Step::At(label) => write!(line, ".{{{}}}", label.as_str())?,
        }
    }
    Ok(())
}

fn kind_name(kind: HeadKind) -> &'static str {
    match kind {
        HeadKind::Bool => "bool",
        HeadKind::Int => "int",
        HeadKind::Function => "function",
        HeadKind::Rcd => "record",
    }
}

fn show_reason(line: &mut String, reason: &Reason) -> Result<(), Memory> {
    match reason {
        Reason::Head(kind) => write!(line, " ({})", kind_name(*kind))?,
        Reason::Label(label) => write!(line, " (field {})", label.as_str())?,
        Reason::Flow => line.push_str(" (flow)")?,
    }
    Ok(())
}

// `yes` and the numbers of its positive and of its negative pairs, or the path and the reason.
pub fn answer(
    rt: &impl Abort,
    alloc: Global,
    general: &str,
    special: &str,
) -> Result<String, Memory> {
    let general = sample(rt, alloc, general)?;
    let special = sample(rt, alloc, special)?;
    assert!(rt; general.env.is_empty());
    let mut line = String::new(alloc);
    match subsumes(alloc, &general, &special)? {
        Verdict::Yes(walk) => write!(
            line,
            "yes {}+{}",
            walk.positives.len(),
            walk.negatives.len()
        )?,
        Verdict::No(path) => {
            show_steps(&mut line, &path)?;
            show_reason(&mut line, &path.reason)?;
        }
    }
    Ok(line)
}
