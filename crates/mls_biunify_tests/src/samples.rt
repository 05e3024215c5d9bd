//! Automata and goals from short texts, for the tests.
ghost use Rattle.std.specs.Prelude.{IfOk};
ghost use Rattle.mls_automaton.specs.Models.{IsClosed};

use mls_automaton::automaton::Automaton;
use mls_automaton::sample::automaton_of;
use mls_automaton::state_set::StateId;
use mls_base::memory::Memory;
use mls_biunify::goal::Goal;
use std::alloc::Global;
use std::process::Abort;

// The automaton of a text, which is one.
pub fn sample(rt: &impl Abort, alloc: Global, text: &str) -> Result<Automaton, Memory>
    ensures { IfOk result IsClosed }
{
    match automaton_of(alloc, text)? {
        Some(a) => Ok(a),
        None => panic!(rt; "no automaton: {text}"),
    }
}

// The goals of a text: `0<2` is one from the positive state 0 to the negative state 2.
pub fn goals_of(alloc: Global, text: &str) -> Result<Vec<Goal>, Memory> {
    let mut goals = Vec::new(alloc);
    for word in text.split_whitespace() {
        let (positive, negative) = word.split_once('<').unwrap_or(("", ""));
        goals.push(Goal {
            positive: StateId(positive.parse::<usize>().unwrap_or(0)),
            negative: StateId(negative.parse::<usize>().unwrap_or(0)),
        })?;
    }
    Ok(goals)
}
