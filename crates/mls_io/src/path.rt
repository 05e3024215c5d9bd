//! A store over several stores.
ghost use Rattle.std.specs.Prelude.{◌≡◌, ◌≢◌, map};
ghost use Rattle.mls_io.specs.Counts.{no_count, Rose, Grows};
ghost use Rattle.mls_io.specs.Paths.{joined};
ghost use Rattle.mls_io.specs.Stores.{IsAsked};
ghost use Rattle.mls_io.specs.steps.Asking.{AskedInTurn};

use crate::count::Counter;
use crate::store::{Fetch, Store};

/// Stores that are asked in turn, and a count of the files that none of them had.
#[derive(Drop)]
pub struct SearchPath {
    /// The stores, the one that is asked first in front.
    pub members: Vec<Box<dyn Store>>,
    misses: Counter,
}

impl SearchPath {
    /// Takes the members, the one that is asked first in front. It takes no memory.
    pub fn new(members: Vec<Box<dyn Store>>) -> SearchPath
        ensures { ⟦<SearchPath as Store>⟧.holdings result ≡ joined no_count (map (λ b. holdings b) members.items) }
    {
        SearchPath {
            members,
            misses: Counter::new(),
        }
    }
}

// Asks one member.
fn ask(member: &mut Box<dyn Store>, name: &str, limit: usize, into: &mut Vec<u8>) -> Fetch
    ensures { IsAsked (holdings member.old) (holdings member.new) name.now limit into.old.items into.new.items result }
{
    member.fetch(name, limit, into)
}

// Asks members in turn, until one answers otherwise than Missing.
fn ask_in_turn(
    members: &mut [Box<dyn Store>],
    name: &str,
    limit: usize,
    into: &mut Vec<u8>,
) -> Fetch
    ensures { AskedInTurn (map (λ b. holdings b) members.old) (map (λ b. holdings b) members.new)
        name.now limit into.old.items into.new.items result }
{
    for i in 0..members.len() {
        let answer = ask(&mut members[i], name, limit, into);
        if answer != Fetch::Missing {
            return answer;
        }
    }
    Fetch::Missing
}

// Counts an answer.
fn count(misses: &mut Counter, answer: Fetch)
    ensures grows { Grows misses.old misses.new }
    ensures rose { answer ≡ Fetch.Missing → Rose misses.old misses.new }
{
    if answer == Fetch::Missing {
        misses.rise();
    }
}

impl Store for SearchPath {
    ghost use Rattle.std.specs.Prelude.{map};
    ghost use Rattle.mls_io.specs.Paths.{joined, EachMisses, StopsEarly};
    ghost use Rattle.mls_io.specs.Stores.{Follows, GivesFound, GivesMissing, GivesLong, GivesFailed};
    ghost use Rattle.mls_io.specs.Stores.{KeepsUnlessFound};

    ghost holdings = { λ path. joined path.misses (map (λ b. (Store-box b).holdings b.value) path.members.items) };

    /// Asks the members in turn. Missing goes on to the next one, and any other answer is that of the path.
    fn fetch(&mut self, name: &str, limit: usize, into: &mut Vec<u8>) -> Fetch
        ensures follows { Follows (⟦<SearchPath as Store>⟧.holdings self.old)
            (⟦<SearchPath as Store>⟧.holdings self.new) }
        ensures found { result ≡ Fetch.Found → GivesFound
            (⟦<SearchPath as Store>⟧.holdings self.old) name.now limit into.old.items into.new.items }
        ensures missing { GivesMissing
            (⟦<SearchPath as Store>⟧.holdings self.old) (⟦<SearchPath as Store>⟧.holdings self.new) name.now result }
        ensures long { result ≡ Fetch.Long → GivesLong
            (⟦<SearchPath as Store>⟧.holdings self.old) (⟦<SearchPath as Store>⟧.holdings self.new) name.now limit }
        ensures failed { result ≡ Fetch.Failed → GivesFailed
            (⟦<SearchPath as Store>⟧.holdings self.old) (⟦<SearchPath as Store>⟧.holdings self.new) }
        ensures unchanged { KeepsUnlessFound result into.old.items into.new.items }

        // Missing comes only where each member answered so, and the count of its misses rose.
        ensures each_missed { result ≡ Fetch.Missing → EachMisses name.now
            (map (λ b. holdings b) self.old.members.items) (map (λ b. holdings b) self.new.members.items) }

        // Any other answer is that of the first member that answered so, and no member behind it was asked.
        ensures stopped { result ≢ Fetch.Missing → StopsEarly
            (map (λ b. holdings b) self.old.members.items) (map (λ b. holdings b) self.new.members.items)
            name.now limit into.old.items into.new.items result }
    {
        let answer = ask_in_turn(&mut self.members, name, limit, into);
        count(&mut self.misses, answer);
        answer
    }
}
