//! Lists of pairs over one small book.
use mls_base::memory::Memory;
use mls_base::spelling::is_name;
use mls_book::book::{Book, Field, Fields, Node, NodeId};
use mls_book::name::Name;
use mls_deriv::claim::{Pair, Put};
use mls_deriv::derivation::Mode;
use mls_pairs::laws::justified_is_not_refuted;
use mls_pairs::pairs::{pair_list, pairs_for};
use std::alloc::Global;
use std::test::Fail;

fn push(book: &mut Book, node: Node) -> Result<(), Memory> {
    if book.can_push(&node) {
        book.push(node)?;
    }
    Ok(())
}

// A record with the field `a`.
fn record(alloc: Global, node: NodeId) -> Result<Node, Memory> {
    let mut fields = Fields::new(alloc);
    if is_name(b"a") {
        let label = Name::new(alloc, b"a")?;
        fields.push(Field { label, node })?;
    }
    Ok(Node::Rcd(fields))
}

fn small_book(alloc: Global) -> Result<Book, Memory> {
    let mut book = Book::new(alloc);
    push(&mut book, Node::Bool)?;
    push(&mut book, Node::Int)?;
    push(&mut book, Node::Join(NodeId(0), NodeId(1)))?;
    push(&mut book, Node::Arrow(NodeId(2), NodeId(0)))?;
    push(&mut book, Node::Arrow(NodeId(0), NodeId(2)))?;
    push(&mut book, Node::Var(0))?;
    push(&mut book, record(alloc, NodeId(0))?)?;
    push(&mut book, record(alloc, NodeId(2))?)?;
    push(&mut book, Node::Arrow(NodeId(0), NodeId(8)))?;
    push(&mut book, Node::Arrow(NodeId(0), NodeId(9)))?;
    Ok(book)
}

// Two chains of eight functions, of which one ends in `bool` and the other one in this node.
fn chains(alloc: Global, last: Node) -> Result<Book, Memory> {
    let mut book = Book::new(alloc);
    push(&mut book, Node::Bool)?;
    push(&mut book, last)?;
    for k in 0..16 {
        push(&mut book, Node::Arrow(NodeId(0), NodeId(k)))?;
    }
    Ok(book)
}

// How many pairs the list for this pair has, and whether it is there.
fn listed(alloc: Global, puts: &[Put], pair: Pair) -> Result<(usize, bool), Memory> {
    let book = small_book(alloc)?;
    listed_in(alloc, &book, puts, pair)
}

fn listed_in(
    alloc: Global,
    book: &Book,
    puts: &[Put],
    pair: Pair,
) -> Result<(usize, bool), Memory> {
    let wanted = vec![in alloc; pair]?;
    let pairs = pair_list(alloc, book, puts, wanted.as_slice())?;
    let has = pairs.as_slice().iter().any(|other| *other == pair);
    Ok((pairs.len(), has))
}

#[test]
fn lists_what_a_pair_needs(rt: HostRuntime) -> Result<(), Fail> {
    let alloc = rt.alloc();
    // The variable stands for `int`.
    let puts = vec![in alloc;
        Put {
            variable: 0,
            node: 1
        },
    ]?;
    let rows = [
        (Mode::Pp, 3, 4, (3, true)),
        (Mode::Pp, 4, 3, (1, false)),
        (Mode::Lr, 2, 2, (5, true)),
        (Mode::Lr, 5, 1, (2, true)),
        (Mode::Rl, 5, 1, (0, false)),
        (Mode::Rl, 1, 5, (2, true)),
        (Mode::Pp, 5, 5, (1, true)),
        (Mode::Lr, 6, 7, (3, true)),
        (Mode::Lr, 7, 6, (1, false)),
        (Mode::Pp, 8, 9, (2, true)),
    ];
    for (mode, left, right, found) in rows {
        let pair = Pair { mode, left, right };
        assert_eq!(rt; listed(alloc, puts.as_slice(), pair)?, found);
    }
    justified_is_not_refuted();
    Ok(())
}

#[test]
fn lists_what_a_pair_needs_where_variables_stand_for_themselves(
    rt: HostRuntime,
) -> Result<(), Fail> {
    let alloc = rt.alloc();
    let rows = [
        (Mode::Lr, 2, 2, (5, true)),
        (Mode::Rl, 0, 2, (2, true)),
        (Mode::Lr, 2, 0, (1, false)),
        (Mode::Lr, 3, 3, (7, true)),
        (Mode::Lr, 5, 5, (1, true)),
        (Mode::Rl, 7, 7, (6, true)),
        (Mode::Lr, 8, 8, (2, true)),
        (Mode::Lr, 3, 4, (5, true)),
    ];
    for (mode, left, right, found) in rows {
        let pair = Pair { mode, left, right };
        assert_eq!(rt; listed(alloc, &[], pair)?, found);
    }
    Ok(())
}

#[test]
fn takes_out_a_chain_of_which_the_last_pair_fails(rt: HostRuntime) -> Result<(), Fail> {
    let alloc = rt.alloc();
    let pair = Pair {
        mode: Mode::Pp,
        left: 16,
        right: 17,
    };
    let fails = chains(alloc, Node::Int)?;
    assert_eq!(rt; listed_in(alloc, &fails, &[], pair)?, (1, false));
    let holds = chains(alloc, Node::Bool)?;
    assert_eq!(rt; listed_in(alloc, &holds, &[], pair)?, (10, true));
    Ok(())
}

// The pair of two nodes that are read plainly.
fn plain(left: usize, right: usize) -> Pair {
    Pair {
        mode: Mode::Pp,
        left,
        right,
    }
}

// Whether just these pairs are chosen for wanted ones.
fn chooses(alloc: Global, book: &Book, wanted: &[Pair], pairs: &[Pair]) -> Result<bool, Memory> {
    let chosen = pairs_for(alloc, book, &[], wanted)?;
    Ok(chosen.as_slice() == pairs)
}

#[test]
fn chooses_one_reason_for_each_pair(rt: HostRuntime) -> Result<(), Fail> {
    let alloc = rt.alloc();
    let book = small_book(alloc)?;
    assert!(rt;
        chooses(
            alloc,
            &book,
            &[plain(3, 4)],
            &[plain(3, 4), plain(0, 2), plain(0, 0)]
        )?
    );
    assert!(rt; chooses(alloc, &book, &[plain(4, 3)], &[])?);
    // The second pair rests on the first one, which fails after the second one is looked at.
    let mut book = Book::new(alloc);
    push(&mut book, Node::Bool)?;
    push(&mut book, Node::Int)?;
    push(&mut book, Node::Arrow(NodeId(0), NodeId(0)))?;
    push(&mut book, Node::Arrow(NodeId(0), NodeId(1)))?;
    let wanted = [plain(0, 1), plain(2, 3), plain(2, 2)];
    assert!(rt; chooses(alloc, &book, &wanted, &[plain(2, 2)])?);
    Ok(())
}
