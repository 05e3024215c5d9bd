//! Texts of types, and the schemes of what they are read as.
use mls_automaton::sample::show_scheme;
use mls_automaton::scheme::Scheme;
use mls_scheme::read::{read_is_polarised, scheme_of_read};
use mls_typetext::from_text::read_type;
use mls_typetext::laws::read_is_closed;
use mls_typetext::scheme::TypeFault;
use std::alloc::Global;
use std::test::Fail;

fn scheme_of_text(alloc: Global, text: &[u8]) -> Result<Scheme, TypeFault> {
    let read = read_type(alloc, text)?;
    read_is_closed();
    read_is_polarised();
    let scheme = scheme_of_read(alloc, &read)?;
    Ok(scheme)
}

#[test]
fn read_types_have_schemes(rt: HostRuntime) -> Result<(), Fail> {
    let rows: [(&[u8], &str); 17] = [
        (b"int", "+i *0"),
        (b"a -> a", "+f1>2 - + 1~2 *0"),
        (b"a -> b", "+f1>2 - + *0"),
        (b"top -> bot", "+f1>2 - + *0"),
        // The top of a layer has a polarity, the atoms and the head of its layer; the nodes within have no head.
        (b"a -> a | int", "+f1>4 - + + +i 1~4 *0"),
        (b"a & b -> a | b", "+f3>6 + + - + + + 3~6 *0"),
        (b"int | bool | {}", "+ + + + +bi{} *4"),
        (b"{}", "+{} *0"),
        (b"{l: a, m: int} -> a", "+f1>4 -{l:2;m:3} - -i + 2~4 *0"),
        (b"rec a. int -> a", "+f1>0 -i *0"),
        (b"rec a. rec b. {l: a, m: b}", "+{l:0;m:0} *0"),
        (
            b"rec a. int -> (rec b. a | {l: b})",
            "+f1>3 -i + +f1>3{l:3} *0",
        ),
        (b"rec a. {l: rec b. a | a | {l: b}}", "+{l:3} + + +{l:3} *0"),
        (
            b"(a -> b) -> {l: a, m: b}",
            "+f1>4 -f2>3 + - +{l:5;m:6} + + 3~6 *0",
        ),
        (b"a -> a -> a | a", "+f1>2 - +f3>6 - + + + 1~6 3~6 *0"),
        (
            b"{l: int} & {m: bool} -> int",
            "+f3>6 + + -{l:4;m:5} -i -b +i *0",
        ),
        (b"{l: int} | {l: bool, m: int}", "+ + +{l:3,4} +i +b +i *2"),
    ];
    for (text, row) in rows.iter() {
        let read = scheme_of_text(rt.alloc(), text);
        assert!(rt; read.is_ok());
        if let Ok(scheme) = read {
            let line = show_scheme(rt.alloc(), &scheme)?;
            assert_eq!(rt; line.as_str(), *row);
        }
    }
    Ok(())
}
