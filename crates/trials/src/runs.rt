// Runs at their limits, and values in them.
use fault::Fault;
use judge::{CELLS, breadth, weight};
use reader::read_formula;
use run::{FleetRun, MilepostRun, Run, TableRun};
use scale::{Answers, Flag, Word};
use std::alloc::Global;
use std::test::Fail;

// A size, zeros, and one byte that is put among them.
fn filled(heap: Global, size: u8, count: usize, place: usize, byte: u8) -> Result<Vec<u8>, Fail> {
    let mut bytes = vec![in heap; 0u8; count]?;
    if let Some(there) = bytes.get_mut(place) {
        *there = byte;
    }
    if let Some(first) = bytes.get_mut(0) {
        *first = size;
    }
    Ok(bytes)
}

#[test]
fn mileposts(rt: HostRuntime) -> Result<(), Fail> {
    let cases = [
        (0, Some(Fault::SizeOutOfRange)),
        (1, None),
        (64, None),
        (65, Some(Fault::SizeOutOfRange)),
    ];
    for (size, fault) in cases {
        assert_eq!(rt; MilepostRun::new(size).err(), fault);
    }
    let run = MilepostRun::new(64)?;
    assert_eq!(rt; run.apply1(0, 62), 63);
    assert_eq!(rt; run.apply1(0, 63), 63);
    assert_eq!(rt; run.apply1(0, 64), 0);
    assert_eq!(rt; run.apply1(1, 62), 0);
    Ok(())
}

#[test]
fn table_sizes(rt: HostRuntime) -> Result<(), Fail> {
    assert_eq!(rt; TableRun::new(&[]).err(), Some(Fault::WrongCount));
    let cases = [
        (0, 17, Some(Fault::SizeOutOfRange)),
        (1, 49, None),
        (2, 112, Some(Fault::WrongCount)),
        (2, 113, None),
        (2, 114, Some(Fault::WrongCount)),
        (32, 16_913, None),
        (33, 17_969, Some(Fault::SizeOutOfRange)),
    ];
    for (size, count, fault) in cases {
        let bytes = filled(rt.alloc(), size, count, 0, 0)?;
        assert_eq!(rt; TableRun::new(&bytes).err(), fault);
    }
    Ok(())
}

// Of three elements: the size, 104 bytes of constants and functions, and as many of predicates.
#[test]
fn table_bytes(rt: HostRuntime) -> Result<(), Fail> {
    let cases = [
        (1, 2, None),
        (1, 3, Some(Fault::ElementOutOfRange)),
        (104, 2, None),
        (104, 3, Some(Fault::ElementOutOfRange)),
        (105, 1, None),
        (105, 2, Some(Fault::NotATruthValue)),
        (208, 1, None),
        (208, 2, Some(Fault::NotATruthValue)),
    ];
    for (place, byte, fault) in cases {
        let bytes = filled(rt.alloc(), 3, 209, place, byte)?;
        assert_eq!(rt; TableRun::new(&bytes).err(), fault);
    }
    Ok(())
}

#[test]
fn fleets(rt: HostRuntime) -> Result<(), Fail> {
    assert_eq!(rt; FleetRun::new(&[], &[]).err(), Some(Fault::WrongCount));
    let cases = [
        (0, 9, 8, 0, Some(Fault::SizeOutOfRange)),
        (1, 25, 24, 0, None),
        (1, 25, 23, 0, Some(Fault::WrongCount)),
        (1, 25, 25, 0, Some(Fault::WrongCount)),
        (1, 24, 24, 0, Some(Fault::WrongCount)),
        (1, 26, 24, 0, Some(Fault::WrongCount)),
        (3, 105, 104, 2, None),
        (3, 105, 104, 3, Some(Fault::ElementOutOfRange)),
        (16, 2_185, 2_184, 15, None),
        (17, 2_457, 2_456, 0, Some(Fault::SizeOutOfRange)),
    ];
    for (size, count, more, last, fault) in cases {
        let bytes = filled(rt.alloc(), size, count, count.saturating_sub(1), last)?;
        let words = vec![in rt.alloc(); u64::MAX; more]?;
        assert_eq!(rt; FleetRun::new(&bytes, &words).err(), fault);
    }
    Ok(())
}

#[test]
fn weighed(rt: HostRuntime) -> Result<(), Fail> {
    let run = MilepostRun::new(3)?;
    let cases = [
        ("Ax0Ex1r0(x0,x1)", false),
        ("Ax0(r0(x0,f0(x0))|-Ex1r0(x0,x1))", true),
        ("(r0(x0,x7)>-r0(x7,x0))", true),
        ("((r0(x1,x4)&r0(x4,x2))>r0(x1,x2))", true),
        ("r0(x0,f0(x0))", false),
        ("p0", false),
    ];
    for (text, value) in cases {
        let formula = read_formula(rt.alloc(), text.as_bytes())?;
        assert_eq!(rt;
            weight(&run, &formula, &mut [Flag::bottom(); CELLS]),
            Some(Flag { value })
        );
    }
    let formula = read_formula(rt.alloc(), b"-p0")?;
    assert_eq!(rt;
        weight(&run, &formula, &mut [Flag::bottom(); CELLS - 1]),
        None
    );
    Ok(())
}

// Two elements: q0 holds of the first in run 1, and of the second in runs 0 and 1.
#[test]
fn weighed_in_a_fleet(rt: HostRuntime) -> Result<(), Fail> {
    let bytes = filled(rt.alloc(), 2, 57, 0, 0)?;
    let mut words = [0u64; 56];
    words[8] = 0b10;
    words[9] = 0b11;
    let run = FleetRun::new(&bytes, &words)?;
    for (text, bits) in [
        ("Ax0q0(x0)", 0b10),
        ("Ex0q0(x0)", 0b11),
        ("q0(x5)", 0b10),
        ("-Ax0q0(x0)", u64::MAX - 0b10),
    ] {
        let formula = read_formula(rt.alloc(), text.as_bytes())?;
        assert_eq!(rt;
            weight(&run, &formula, &mut [Word::bottom(); CELLS]),
            Some(Word::new(bits))
        );
    }
    Ok(())
}

#[test]
fn broad(rt: HostRuntime) -> Result<(), Fail> {
    let cases = [
        ("p0", 0),
        ("(q0(x0)&q0(x0))", 1),
        ("(Ax0Ex1r0(x0,x1)>r0(x0,x1))", 4),
        ("(Ax0Ex1r0(x0,x1)>r0(x0,g0(x1,x2)))", 5),
    ];
    for (text, expected) in cases {
        let formula = read_formula(rt.alloc(), text.as_bytes())?;
        assert_eq!(rt; breadth(&formula), expected);
    }
    Ok(())
}
