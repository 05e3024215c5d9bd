//! The texts of small schemes.
use mls_automaton::sample::scheme_of;
use mls_base::memory::Memory;
use mls_print::print::print_scheme;
use mls_typetext::from_text::read_type;
use std::alloc::Global;
use std::process::Abort;
use std::test::Fail;

// The text that is printed for the scheme of a text, which is one.
fn printed(rt: &impl Abort, alloc: Global, text: &str) -> Result<Vec<u8>, Memory> {
    let Some(scheme) = scheme_of(alloc, text)? else {
        panic!(rt; "no scheme: {text}");
    };
    assert!(rt; scheme.env.is_empty());
    print_scheme(alloc, &scheme)
}

// Prints the scheme of a text, finds this text, and reads it back.
fn check(rt: &impl Abort, alloc: Global, text: &str, row: &str) -> Result<(), Memory> {
    let found = printed(rt, alloc, text)?;
    assert_eq!(rt; found.as_slice(), row.as_bytes(), "{text}");
    assert!(rt; read_type(alloc, found.as_slice()).is_ok(), "{text}");
    Ok(())
}

#[test]
fn prints_functions_and_variables(rt: HostRuntime) -> Result<(), Fail> {
    for (text, row) in [
        ("+ *0", "bot"),
        ("+bi *0", "bool | int"),
        ("+f1>2 - + *0", "top -> bot"),
        ("+f1>2 - + 1~2 *0", "a -> a"),
        ("+f1>2 - + + - 1~3 4~2 *0", "top -> bot"),
        ("+f>1 +i *0", "top -> int"),
        ("+f1>2 -i + 1~2 *0", "a & int -> a"),
        ("+f1,2>3 -i -b + *0", "bool & int -> bot"),
        ("+f1>2,3 - +i +b *0", "top -> bool | int"),
        ("+bf1>2{} - + *0", "bool | (top -> bot) | {}"),
        ("+f1>2 -if3>4 + + - *0", "int & (bot -> top) -> bot"),
        ("+f1>2 - +f3>4 - + 1~4 *0", "a -> top -> a"),
        ("+f1>2 - +f3>4 - + 3~4 1~4 *0", "a -> b -> a | b"),
        ("+f3>2 - +f1>4 - + 1~4 3~4 *0", "a -> b -> a | b"),
        ("+f1>2 -f3>4 + + - 4~3 *0", "(a -> a) -> bot"),
        ("+f1>2 -f3>4 +f5>6 + - - + 5~3 4~6 *0", "(a -> b) -> a -> b"),
    ] {
        check(&rt, rt.alloc(), text, row)?;
    }
    Ok(())
}

#[test]
fn prints_records_and_recursions(rt: HostRuntime) -> Result<(), Fail> {
    for (text, row) in [
        ("+{} *0", "{}"),
        ("+{l:} *0", "{l: bot}"),
        ("+{a:2;b:1} +i +b *0", "{a: bool, b: int}"),
        ("+f1>2,3 - +{a:4} +{b:4} +i *0", "top -> {}"),
        (
            "+f1>2,3 - +{a:4;b:4} +{b:5} +i +b *0",
            "top -> {b: bool | int}",
        ),
        (
            "+f1,2>3 -{a:4;b:4} -{b:5} + -i -b *0",
            "{a: int, b: bool & int} -> bot",
        ),
        ("+{l:0} *0", "rec a. {l: a}"),
        ("+f1>2 - +f3>0 - *0", "rec a. top -> top -> a"),
        ("+f1>2 -f0>3 + - *0", "rec a. (a -> top) -> bot"),
        (
            "+{a:1;b:1} +{l:1} *0",
            "{a: rec a. {l: a}, b: rec b. {l: b}}",
        ),
        ("+{l:1} +{m:0;n:1} *0", "rec a. {l: rec b. {m: a, n: b}}"),
        ("+f1>2 -{l:1} + *0", "(rec a. {l: a}) -> bot"),
        ("+{l:1,2} +{l:1} +{l:1} *0", "{l: {l: rec a. {l: a}}}"),
        ("+{l:1} +{l:1,2} +{l:2} *0", "{l: {l: rec a. {l: a}}}"),
        ("+f1>2 - +{l:2} 1~2 *0", "a -> rec b. a | {l: b}"),
        ("+f1>0 - 1~0 *0", "rec a. b | (b -> a)"),
    ] {
        check(&rt, rt.alloc(), text, row)?;
    }
    Ok(())
}

// The text of a function of n arguments that gives the join of them.
fn join_of(alloc: Global, n: usize) -> Result<String, Memory> {
    let mut text = String::new(alloc);
    let first = n.saturating_add(1);
    for k in 0..n {
        write!(
            text,
            "+f{}>{} ",
            first.saturating_add(k),
            k.saturating_add(1)
        )?;
    }
    text.push_str("+")?;
    for _k in 0..n {
        text.push_str(" -")?;
    }
    for k in 0..n {
        write!(text, " {}~{n}", first.saturating_add(k))?;
    }
    text.push_str(" *0")?;
    Ok(text)
}

#[test]
fn names_have_numbers_behind_z(rt: HostRuntime) -> Result<(), Fail> {
    let text = join_of(rt.alloc(), 27)?;
    let first = "a -> b -> c -> d -> e -> f -> g -> h -> i -> j -> k -> l -> m -> n -> ";
    let more = "o -> p -> q -> r -> s -> t -> u -> v -> w -> x -> y -> z -> a1 -> ";
    let result = "a | b | c | d | e | f | g | h | i | j | k | l | m | n | o | p | q | r | s | t";
    let rest = " | u | v | w | x | y | z | a1";
    let row = format!(in rt.alloc(); "{first}{more}{result}{rest}")?;
    check(&rt, rt.alloc(), text.as_str(), row.as_str())?;
    Ok(())
}
