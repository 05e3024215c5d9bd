//! Automata and schemes from short texts and back, for tests and for people who look into one.
//!
//! A text is words with one space between two, in this order:
//!
//! - a state: `+` where it is positive or `-` where it is negative, and its head; they are numbered from 0;
//! - an edge: `2~1` goes from the negative state 2 to the positive state 1;
//! - a binder: `x4=2` gives binder 4 the state 2; binders rise;
//! - the root: `*1` is state 1. A scheme has one, and an automaton has neither a root nor binders.
//!
//! A head has some of four parts, in this order, in which sets rise: `b` is `bool`; `i` is `int`; `f3>0,1` is a
//! function from the set of state 3 to the set of states 0 and 1, and `f>` one with two empty sets; `{a:1;b:2,3}` is a
//! record with the set of state 1 at the label `a` and that of states 2 and 3 at `b`, and `{}` one without fields.
//! So `- + +f0>1 0~1 *2` is the scheme of `fun x -> x`: a function from state 0 to state 1, which have one variable.
ghost use Rattle.std.specs.Prelude.{◌↔◌, ◌<◌, All, IfOk, IfSome, IsTrue};
ghost use Rattle.mls_automaton.specs.declared.automaton.Polarity.TheVariants.{Negative};
ghost use Rattle.mls_automaton.specs.declared.scheme.EnvEntry.{EnvEntry};
ghost use Rattle.mls_automaton.specs.Automata.{IsState};
ghost use Rattle.mls_automaton.specs.Environments.{BindersRise};
ghost use Rattle.mls_automaton.specs.Models.{IsClosed};
ghost use Rattle.mls_automaton.specs.Schemes.{IsScheme};

use crate::automaton::{Arms, Automaton, FieldSet, FieldSets, Head, Polarity};
use crate::scheme::{Env, EnvEntry, Scheme};
use crate::state_set::{StateId, StateSet};
use mls_base::memory::Memory;
use mls_base::spelling::is_name;
use mls_book::name::Name;
use std::alloc::Global;

/// The automaton of a text. None comes where the text is not just what [`show_automaton`] writes of one that is closed.
///
/// # Errors
///
/// `Memory` where memory is wanting.
pub fn automaton_of(alloc: Global, text: &str) -> Result<Option<Automaton>, Memory>
    ensures { IfOk result (λ read. IfSome read IsClosed) }
{
    let automaton = read(alloc, text)?.automaton;
    let is_whole = show_automaton(alloc, &automaton)?.as_str() == text;
    Ok((is_whole && automaton.is_closed()).then_some(automaton))
}

/// The scheme of a text. None comes where the text is not just what [`show_scheme`] writes of one whose automaton is
/// closed, whose root is positive and whose binders have negative states.
///
/// # Errors
///
/// `Memory` where memory is wanting.
pub fn scheme_of(alloc: Global, text: &str) -> Result<Option<Scheme>, Memory>
    ensures { IfOk result (λ read. IfSome read IsScheme) }
{
    let scheme = read(alloc, text)?;
    let is_whole = show_scheme(alloc, &scheme)?.as_str() == text;
    Ok((is_whole && is_scheme(&scheme)).then_some(scheme))
}

/// The text of an automaton.
///
/// # Errors
///
/// `Memory` where memory is wanting.
pub fn show_automaton(alloc: Global, automaton: &Automaton) -> Result<String, Memory> {
    let mut line = String::new(alloc);
    let mut space = "";
    for s in 0..automaton.len() {
        let is_positive = automaton.polarity(StateId(s)) == Polarity::Positive;
        let sign = if is_positive { "+" } else { "-" };
        write!(line, "{space}{sign}")?;
        show_head(&mut line, automaton.head(StateId(s)))?;
        space = " ";
    }
    for flow in automaton.flows() {
        write!(line, " {}~{}", flow.negative.0, flow.positive.0)?;
    }
    Ok(line)
}

/// The text of a scheme, with its root last.
///
/// # Errors
///
/// `Memory` where memory is wanting.
pub fn show_scheme(alloc: Global, scheme: &Scheme) -> Result<String, Memory> {
    let mut line = show_automaton(alloc, &scheme.automaton)?;
    for entry in scheme.env.as_slice() {
        write!(line, " x{}={}", entry.binder, entry.state.0)?;
    }
    write!(line, " *{}", scheme.root.0)?;
    Ok(line)
}

#[tactic(auto, using(crate::proofs::CheckedSchemes::checked))]
fn is_scheme(scheme: &Scheme) -> bool
    ensures { IsTrue result → IsScheme scheme.now }
{
    scheme.automaton.is_closed()
        && is_state(&scheme.automaton, Polarity::Positive, scheme.root)
        && has_binders(&scheme.automaton, scheme.env.as_slice())
}

fn is_state(automaton: &Automaton, polarity: Polarity, s: StateId) -> bool
    ensures { IsTrue result ↔ IsState automaton.now polarity s.0 }
{
    s.0 < automaton.len() && automaton.polarity(s) == polarity
}

fn has_binders(automaton: &Automaton, env: &[EnvEntry]) -> bool
    ensures { IsTrue result ↔ All (λ entry. IsState automaton.now Negative entry.state.0) env.now }
{
    env.iter().all(|entry| is_state(automaton, Polarity::Negative, entry.state))
}

// What the words say, where each that says nothing is passed over.
fn read(alloc: Global, text: &str) -> Result<Scheme, Memory> {
    let mut scheme = Scheme {
        automaton: Automaton::new(alloc),
        env: Env::new(alloc),
        root: StateId(0),
    };
    for word in text.split(' ') {
        add_word(alloc, &mut scheme, word)?;
    }
    Ok(scheme)
}

fn add_word(alloc: Global, scheme: &mut Scheme, word: &str) -> Result<(), Memory> {
    if let Some(text) = word.strip_prefix('+') {
        let head = head_of(alloc, text)?;
        scheme.automaton.state(Polarity::Positive, head)?;
    } else if let Some(text) = word.strip_prefix('-') {
        let head = head_of(alloc, text)?;
        scheme.automaton.state(Polarity::Negative, head)?;
    } else if let Some(text) = word.strip_prefix('x') {
        add_binder(&mut scheme.env, text)?;
    } else if let Some(text) = word.strip_prefix('*') {
        scheme.root = StateId(text.parse::<usize>().unwrap_or(0));
    } else {
        add_edge(&mut scheme.automaton, word)?;
    }
    Ok(())
}

fn add_edge(automaton: &mut Automaton, text: &str) -> Result<(), Memory> {
    let (negative, positive) = numbers(text, '~').unwrap_or((0, 0));
    let (negative, positive) = (StateId(negative), StateId(positive));
    if is_state(automaton, Polarity::Negative, negative)
        && is_state(automaton, Polarity::Positive, positive)
    {
        automaton.add_flow(negative, positive)?;
    }
    Ok(())
}

fn add_binder(env: &mut Env, text: &str) -> Result<(), Memory> {
    let (binder, state) = numbers(text, '=').unwrap_or((0, 0));
    let state = StateId(state);
    if is_next(env.as_slice(), binder) {
        env.push(EnvEntry { binder, state })?;
    }
    Ok(())
}

fn is_next(env: &[EnvEntry], binder: usize) -> bool
    requires { BindersRise env.now }
    ensures { IsTrue result → All (λ (other : EnvEntry). other.binder < binder) env.now }
{
    env.is_empty() || env[env.len() - 1].binder < binder
}

// The numbers on both sides of a sign.
fn numbers(text: &str, sign: char) -> Option<(usize, usize)> {
    let (left, right) = text.split_once(sign)?;
    Some((left.parse::<usize>().ok()?, right.parse::<usize>().ok()?))
}

fn head_of(alloc: Global, text: &str) -> Result<Head, Memory> {
    let mut head = Head::empty();
    head.boolean = text.starts_with('b');
    head.integer = text.starts_with("bi") || text.starts_with('i');
    let (front, fields) = text.split_once('{').unwrap_or((text, ""));
    if front.len() < text.len() {
        head.fields = Some(fields_of(alloc, fields)?);
    }
    if let Some((_, sets)) = front.split_once('f') {
        head.function = Some(arms_of(alloc, sets)?);
    }
    Ok(head)
}

fn arms_of(alloc: Global, text: &str) -> Result<Arms, Memory> {
    let (domain, codomain) = text.split_once('>').unwrap_or((text, ""));
    let domain = set_of(alloc, domain)?;
    let codomain = set_of(alloc, codomain)?;
    Ok(Arms { domain, codomain })
}

fn fields_of(alloc: Global, text: &str) -> Result<FieldSets, Memory> {
    let (text, _) = text.split_once('}').unwrap_or((text, ""));
    let mut fields = FieldSets::new(alloc);
    for field in text.split(';') {
        let (label, set) = field.split_once(':').unwrap_or(("", ""));
        if is_name(label.as_bytes()) {
            let label = Name::new(alloc, label.as_bytes())?;
            let set = set_of(alloc, set)?;
            fields.push(FieldSet { label, set })?;
        }
    }
    Ok(fields)
}

fn set_of(alloc: Global, text: &str) -> Result<StateSet, Memory> {
    let mut set = StateSet::new(alloc);
    for member in text.split(',') {
        if let Ok(s) = member.parse::<usize>() {
            set.insert(StateId(s))?;
        }
    }
    Ok(set)
}

fn show_head(line: &mut String, head: &Head) -> Result<(), Memory> {
    line.push_str(if head.boolean { "b" } else { "" })?;
    line.push_str(if head.integer { "i" } else { "" })?;
    if let Some(arms) = &head.function {
        line.push_str("f")?;
        show_set(line, &arms.domain)?;
        line.push_str(">")?;
        show_set(line, &arms.codomain)?;
    }
    if let Some(fields) = &head.fields {
        line.push_str("{")?;
        show_fields(line, fields.as_slice())?;
        line.push_str("}")?;
    }
    Ok(())
}

fn show_fields(line: &mut String, fields: &[FieldSet]) -> Result<(), Memory> {
    let mut mark = "";
    for field in fields {
        write!(line, "{mark}{}:", field.label.as_str())?;
        show_set(line, &field.set)?;
        mark = ";";
    }
    Ok(())
}

fn show_set(line: &mut String, set: &StateSet) -> Result<(), Memory> {
    let mut mark = "";
    for s in set.as_slice() {
        write!(line, "{mark}{s}")?;
        mark = ",";
    }
    Ok(())
}
