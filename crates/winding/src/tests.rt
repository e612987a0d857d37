// Worked examples of lengths, texts and lines.
use crate::bill::Thousandths;
use crate::capture::{LineFault, bears_data, read_wheel, record_digits, wind_line};
use crate::winding::Winding;
use counter::{Counter, FullRange};
use encoder::{PickedEvaluation, Quadruple};
use std::test::Fail;

#[test]
fn lengths_round_down(rt: HostRuntime) -> Result<(), Fail> {
    let lengths = [
        ("333333 50", 602, 1003),
        ("200000 500", 2000, 200),
        ("1000 1", -1, -1),
        ("1000 1", -4, -1),
        ("1000 1", -5, -2),
        ("4294967295 1", -2147483648, -2305843008676824),
    ];
    for (line, reading, millimetres) in lengths {
        let wheel = read_wheel(line)?;
        assert_eq!(rt;
            wheel.length(reading, PickedEvaluation::Quadruple),
            Thousandths(millimetres)
        );
    }
    Ok(())
}

#[test]
fn lengths_by_evaluation(rt: HostRuntime) -> Result<(), Fail> {
    let lengths = [
        ("333333 50", 602, PickedEvaluation::Quadruple, 1003),
        ("333333 50", 301, PickedEvaluation::Double, 1003),
        ("200000 500", 2000, PickedEvaluation::Quadruple, 200),
        ("200000 500", 500, PickedEvaluation::Single, 200),
        ("200000 500", 500, PickedEvaluation::PulseDirection, 200),
        ("1000 1", -1, PickedEvaluation::Quadruple, -1),
        ("1000 1", -4, PickedEvaluation::Quadruple, -1),
        ("1000 1", -5, PickedEvaluation::Quadruple, -2),
        (
            "4294967295 1",
            -2147483648,
            PickedEvaluation::Quadruple,
            -2305843008676824,
        ),
    ];
    for (line, reading, evaluation, millimetres) in lengths {
        let wheel = read_wheel(line)?;
        assert_eq!(rt; wheel.length(reading, evaluation), Thousandths(millimetres));
    }
    Ok(())
}

#[test]
fn thousandths_as_text(rt: HostRuntime) -> Result<(), Fail> {
    let texts = [
        (0, "0.000"),
        (7, "0.007"),
        (-1, "-0.001"),
        (-1500, "-1.500"),
        (1234567, "1234.567"),
    ];
    for (n, text) in texts {
        assert_eq!(rt; Thousandths(n).to_string(rt.alloc())?.as_str(), text);
    }
    Ok(())
}

#[test]
fn bad_lines_are_not_wound(rt: HostRuntime) {
    let mut winding = Winding::new(Quadruple, FullRange::new(0, false));
    let lines = [
        ("5 1", Ok(())),
        ("5 3", Ok(())),
        ("5 0", Ok(())),
        ("5", Err(LineFault::NotTwoNumbers)),
        ("5  2", Err(LineFault::NotTwoNumbers)),
        ("-5 2", Err(LineFault::NotTwoNumbers)),
        ("5 2 ", Err(LineFault::NotTwoNumbers)),
        ("1000001 9", Err(LineFault::TimeTooLong)),
        ("1000000 8", Err(LineFault::LevelsOutOfRange)),
        ("0 256", Err(LineFault::LevelsOutOfRange)),
        ("1000000 7", Ok(())),
    ];
    for (line, answer) in lines {
        assert!(rt; bears_data(line));
        assert_eq!(rt; wind_line(&mut winding, line), answer);
    }
    assert_eq!(rt; winding.counter.meaning().reading, 2);
    assert_eq!(rt; winding.tally.samples, 4);
    assert_eq!(rt; winding.tally.doubles, 2);
    assert_eq!(rt; winding.tally.elapsed, 1000015);
}

#[test]
fn lines_of_the_record(rt: HostRuntime) -> Result<(), Fail> {
    let digits = record_digits("record 0102ff").ok_or("it begins with the word")?;
    assert_eq!(rt; digits, b"0102ff".as_slice());
    for line in ["0102ff", "record", "records 01", "Record 01", " record 01"] {
        assert!(rt; record_digits(line).is_none());
    }
    Ok(())
}
