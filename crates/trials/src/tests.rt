// Each text with what reading it answers.
use fault::{Fault, Misreading, Source};
use printer::{print, text_len};
use reader::{read_formula, read_term};
use sign::{Name, Variables};
use std::test::Fail;

// 200 and 201 parts.
const FULL: &str =
    "-((((((p0&(p0&p0))&(p0&(p0&p0)))&((p0&(p0&p0))&(p0&(p0&p0))))&(((p0&(p0&p0))&(p0&(p0&p0)))&((p0&\
(p0&p0))&((p0&p0)&(p0&p0)))))&((((p0&(p0&p0))&(p0&(p0&p0)))&((p0&(p0&p0))&(p0&(p0&p0))))&(((p0&(\
p0&p0))&(p0&(p0&p0)))&((p0&(p0&p0))&((p0&p0)&(p0&p0))))))&(((((p0&(p0&p0))&(p0&(p0&p0)))&((p0&(p\
0&p0))&(p0&(p0&p0))))&(((p0&(p0&p0))&(p0&(p0&p0)))&((p0&(p0&p0))&((p0&p0)&(p0&p0)))))&((((p0&(p0\
&p0))&(p0&(p0&p0)))&((p0&(p0&p0))&(p0&(p0&p0))))&(((p0&(p0&p0))&(p0&(p0&p0)))&((p0&(p0&p0))&((p0\
&p0)&(p0&p0)))))))";

const OVERFULL: &str =
    "((((((p0&(p0&p0))&(p0&(p0&p0)))&((p0&(p0&p0))&(p0&(p0&p0))))&(((p0&(p0&p0))&(p0&(p0&p0)))&((p0&(\
p0&p0))&((p0&p0)&(p0&p0)))))&((((p0&(p0&p0))&(p0&(p0&p0)))&((p0&(p0&p0))&(p0&(p0&p0))))&(((p0&(p\
0&p0))&(p0&(p0&p0)))&((p0&(p0&p0))&((p0&p0)&(p0&p0))))))&(((((p0&(p0&p0))&(p0&(p0&p0)))&((p0&(p0\
&p0))&(p0&(p0&p0))))&(((p0&(p0&p0))&(p0&(p0&p0)))&((p0&(p0&p0))&((p0&p0)&(p0&p0)))))&((((p0&(p0&\
p0))&(p0&(p0&p0)))&((p0&(p0&p0))&((p0&p0)&(p0&p0))))&(((p0&(p0&p0))&(p0&(p0&p0)))&((p0&(p0&p0))&\
((p0&p0)&(p0&p0)))))))";

#[test]
fn refused(rt: HostRuntime) {
    let cases = [
        ("", Misreading::EndsEarly, 0),
        ("q0(x8)", Misreading::NotAllowed, 4),
        ("q0(c0)p", Misreading::AfterEnd, 6),
        ("(p0&p1", Misreading::EndsEarly, 6),
        ("x0", Misreading::NotAllowed, 0),
        ("------------------------p0", Misreading::TooDeep, 24),
        (
            "q0(f0(f0(f0(f0(f0(f0(f0(f0(f0(f0(f0(f0(f0(f0(f0(f0(f0(f0(f0(f0(f0(f0(f0(x0))))))))))))))))))))))))",
            Misreading::TooDeep,
            72,
        ),
        (OVERFULL, Misreading::TooMany, 493),
    ];
    for (text, what, place) in cases {
        let fault = Fault::Reading(what, Source::Formula, place);
        assert_eq!(rt;
            read_formula(rt.alloc(), text.as_bytes()).err(),
            Some(fault)
        );
    }
}

#[test]
fn read(rt: HostRuntime) -> Result<(), Fail> {
    let cases = [
        ("p0", 1, 1),
        ("q0(x7)", 2, 2),
        ("-----------------------p0", 24, 24),
        (
            "q0(f0(f0(f0(f0(f0(f0(f0(f0(f0(f0(f0(f0(f0(f0(f0(f0(f0(f0(f0(f0(f0(f0(x0)))))))))))))))))))))))",
            24,
            24,
        ),
        (FULL, 200, 9),
        ("(Ax0r0(x0,x1)&q0(x2))", 7, 4),
    ];
    for (text, parts, levels) in cases {
        let formula = read_formula(rt.alloc(), text.as_bytes())?;
        assert_eq!(rt; formula.parts(), parts);
        assert_eq!(rt; formula.levels(), levels);
    }
    Ok(())
}

#[test]
fn terms(rt: HostRuntime) -> Result<(), Fail> {
    let cases = [
        ("", Misreading::EndsEarly, 0),
        ("f0(p0)", Misreading::NotAllowed, 3),
        ("c0,", Misreading::AfterEnd, 2),
        (
            "f0(f0(f0(f0(f0(f0(f0(f0(f0(f0(f0(f0(f0(f0(f0(f0(f0(f0(f0(f0(f0(f0(f0(f0(x0))))))))))))))))))))))))",
            Misreading::TooDeep,
            72,
        ),
    ];
    for (text, what, place) in cases {
        let fault = Fault::Reading(what, Source::Term, place);
        assert_eq!(rt; read_term(rt.alloc(), text.as_bytes()).err(), Some(fault));
    }
    let deepest =
        "f0(f0(f0(f0(f0(f0(f0(f0(f0(f0(f0(f0(f0(f0(f0(f0(f0(f0(f0(f0(f0(f0(f0(x0)))))))))))))))))))))))";
    let term = read_term(rt.alloc(), deepest.as_bytes())?;
    assert_eq!(rt; term.levels(), 24);
    Ok(())
}

#[test]
fn free(rt: HostRuntime) -> Result<(), Fail> {
    let formula = read_formula(rt.alloc(), b"(Ax0r0(x0,x1)&q0(x2))")?;
    let free = formula.free_variables();
    let holds = [false, true, true, false, false, false, false, false];
    assert_eq!(rt; free, Variables { holds });
    Ok(())
}

#[test]
fn answered(rt: HostRuntime) {
    let set = Variables::of(Name::all().map(|x| x.digit % 3 == 1));
    let holds = [false, true, false, false, true, false, false, true];
    assert_eq!(rt; set, Variables { holds });
}

#[test]
fn printed(rt: HostRuntime) -> Result<(), Fail> {
    let text = "Ax0(r0(x0,g1(c2,x3))>Ex3-q4(f5(x3)))";
    let formula = read_formula(rt.alloc(), text.as_bytes())?;
    assert_eq!(rt; text_len(&formula), 36);
    let mut short = [7u8; 35];
    assert_eq!(rt; print(&formula, &mut short), Err(Fault::BufferShort));
    assert!(rt; short == [7u8; 35]);
    let mut exact = [7u8; 36];
    assert_eq!(rt; print(&formula, &mut exact), Ok(36));
    let mut out = [7u8; 38];
    assert_eq!(rt; print(&formula, &mut out), Ok(36));
    assert!(rt; &out[0..36] == text.as_bytes());
    assert!(rt; out[36] == 7 && out[37] == 7);
    Ok(())
}

#[test]
fn printed_term(rt: HostRuntime) -> Result<(), Fail> {
    let text = "g1(c2,f5(x3))";
    let term = read_term(rt.alloc(), text.as_bytes())?;
    assert_eq!(rt; text_len(&term), 13);
    assert_eq!(rt; print(&term, &mut [7u8; 12]), Err(Fault::BufferShort));
    let mut exact = [7u8; 13];
    assert_eq!(rt; print(&term, &mut exact), Ok(13));
    assert!(rt; &exact[..] == text.as_bytes());
    Ok(())
}
