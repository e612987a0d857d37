use super::*;
use counter::{Counter, MainDirection, Mode};
use encoder::{Evaluation, Pair, PickedEvaluation, Pulse};
use refusal::{Layer, Refusal};
use std::test::Fail;

// Once, direction none, end HIGH, load 1, quadruple, B as it is, DI as hardware gate, its input as
// it is, cancel, synchronisation once. Output 1 is on from 1 up with hysteresis 5, output 2 gives a
// pulse of 500 ms at 1. Any number is within the limits, and 1 is within those of every counter.
const PLAIN: [u8; 66] = *b"\
    \x01\x00\x01\x01\
    \x02\x00\x01\x00\
    \x03\x00\x04\x7f\xff\xff\xff\
    \x04\x00\x04\x00\x00\x00\x01\
    \x05\x00\x01\x04\
    \x06\x00\x01\x00\
    \x07\x00\x01\x01\
    \x08\x00\x01\x00\
    \x09\x00\x01\x00\
    \x0a\x00\x01\x00\
    \x0b\x00\x07\x01\x05\x01\x00\x00\x00\x01\
    \x0c\x00\x07\x03\x00\xfa\x00\x00\x00\x01";

// Of each field the place of its first byte, of its value's first byte, and of the field behind it.
const FIELDS: [(usize, usize, usize); 12] = [
    (0, 3, 4),
    (4, 7, 8),
    (8, 11, 15),
    (15, 18, 22),
    (22, 25, 26),
    (26, 29, 30),
    (30, 33, 34),
    (34, 37, 38),
    (38, 41, 42),
    (42, 45, 46),
    (46, 49, 56),
    (56, 59, 66),
];

// The number and the place of a refusal. By another layer than the record's, number 0 would stand there.
fn told(refusal: Refusal) -> (u8, usize) {
    match refusal.layer() {
        Layer::Record => (refusal.number(), refusal.place()),
        _ => (0, refusal.place()),
    }
}

// What the reader answers; nothing where the record is accepted.
fn verdict(record: &[u8]) -> Option<(u8, usize)> {
    Parameters::read(record).err().map(told)
}

// A record with one byte changed.
fn with(record: [u8; 66], position: usize, byte: u8) -> [u8; 66] {
    let mut record = record;
    if let Some(changed) = record.get_mut(position) {
        *changed = byte;
    }
    record
}

// A record with the number from a position on changed.
fn with_number(record: [u8; 66], position: usize, number: i32) -> [u8; 66] {
    let [a, b, c, d] = number.to_be_bytes();
    let first = with(record, position, a);
    let second = with(first, position.saturating_add(1), b);
    let third = with(second, position.saturating_add(2), c);
    with(third, position.saturating_add(3), d)
}

// What the reader answers when two bytes more follow.
fn verdict_on_longer(record: [u8; 66], rt: &HostRuntime) -> Result<Option<(u8, usize)>, Fail> {
    let mut longer = record.to_vec(rt.alloc())?;
    longer.push(0)?;
    longer.push(0)?;
    Ok(verdict(longer.as_slice()))
}

#[test]
fn every_truncation(rt: HostRuntime) -> Result<(), Fail> {
    for length in 0..66usize {
        let cut = PLAIN.get(0..length).ok_or("the record has 66 bytes")?;
        let mut expected = None;
        for (place, value, next) in FIELDS {
            if place <= length && length < value {
                expected = Some((1, place));
            } else if value <= length && length < next {
                expected = Some((4, place));
            }
        }
        assert!(rt; expected.is_some());
        assert_eq!(rt; verdict(cut), expected);
    }
    assert_eq!(rt; verdict(&PLAIN), None);
    Ok(())
}

#[test]
fn a_wrong_tag_or_length_in_every_field(rt: HostRuntime) -> Result<(), Fail> {
    for (place, value, _) in FIELDS {
        let high = place.saturating_add(1);
        let low = place.saturating_add(2);
        let tag = PLAIN.get(place).ok_or("no tag")?;
        assert_eq!(rt;
            verdict(&with(PLAIN, place, tag.saturating_add(1))),
            Some((2, place))
        );
        assert_eq!(rt; verdict(&with(PLAIN, place, 0)), Some((2, place)));
        assert_eq!(rt; verdict(&with(PLAIN, high, 1)), Some((3, place)));
        assert_eq!(rt; verdict(&with(PLAIN, low, 0)), Some((3, place)));
        assert_eq!(rt; verdict(&with(PLAIN, low, 255)), Some((3, place)));
        let both = with(with(PLAIN, place, 99), high, 1);
        assert_eq!(rt; verdict(&both), Some((2, place)));
        assert_eq!(rt;
            verdict(both.get(0..high).ok_or("no tag")?),
            Some((1, place))
        );
        assert_eq!(rt;
            verdict(both.get(0..low).ok_or("no length")?),
            Some((1, place))
        );
        let cut = with(PLAIN, low, 255);
        assert_eq!(rt;
            verdict(cut.get(0..value).ok_or("no value")?),
            Some((3, place))
        );
    }
    Ok(())
}

#[test]
fn codes_that_there_are(rt: HostRuntime) {
    // The place of a value's byte, and codes up to the edges.
    let good = [
        (3usize, [0u8, 1, 2, 2]),
        (7, [0, 1, 2, 2]),
        (25, [0, 1, 2, 4]),
        (29, [0, 1, 0, 1]),
        (33, [0, 1, 2, 3]),
        (33, [4, 4, 4, 4]),
        (37, [0, 1, 0, 1]),
        (41, [0, 1, 0, 1]),
        (45, [0, 1, 0, 1]),
        (49, [0, 1, 2, 3]),
        (50, [0, 1, 254, 255]),
        (51, [1, 2, 249, 250]),
        (59, [0, 1, 2, 3]),
        (60, [0, 1, 254, 255]),
        (61, [1, 2, 249, 250]),
    ];
    for (position, codes) in good {
        for code in codes {
            assert_eq!(rt; verdict(&with(PLAIN, position, code)), None);
        }
    }
}

#[test]
fn codes_past_their_edges(rt: HostRuntime) {
    // The place of a value's byte, codes beside the edges, and the field's place.
    let bad = [
        (3usize, [3u8, 255], 0usize),
        (7, [3, 255], 4),
        (25, [3, 5], 22),
        (29, [2, 255], 26),
        (33, [5, 255], 30),
        (37, [2, 255], 34),
        (41, [2, 255], 38),
        (45, [2, 255], 42),
        (49, [4, 255], 46),
        (51, [0, 251], 46),
        (59, [4, 255], 56),
        (61, [0, 251], 56),
    ];
    for (position, codes, place) in bad {
        for code in codes {
            assert_eq!(rt; verdict(&with(PLAIN, position, code)), Some((5, place)));
        }
    }
}

#[test]
fn numbers_at_their_edges(rt: HostRuntime) {
    for end in [2, 3, i32::MAX] {
        assert_eq!(rt; verdict(&with_number(PLAIN, 11, end)), None);
    }
    for end in [1, 0, -1, i32::MIN] {
        assert_eq!(rt; verdict(&with_number(PLAIN, 11, end)), Some((5, 8)));
    }
    for number in [i32::MIN, -1, 0, i32::MAX] {
        for position in [18usize, 52, 62] {
            assert_eq!(rt; verdict(&with_number(PLAIN, position, number)), None);
        }
    }
}

#[test]
fn limits_at_their_edges(rt: HostRuntime) {
    // Mode, direction, end value, and the limits; a limit at LOW or HIGH has nothing beyond it.
    let counters = [
        (0u8, 0u8, 10, i32::MIN, i32::MAX),
        (1, 0, 10, i32::MIN, i32::MAX),
        (2, 0, 10, i32::MIN, i32::MAX),
        (1, 1, 10, i32::MIN, 9),
        (2, 1, 10, i32::MIN, 9),
        (1, 2, 10, 1, 10),
        (2, 2, 10, 1, 10),
        (1, 1, 2, i32::MIN, 1),
        (1, 2, 2, 1, 2),
        (2, 1, i32::MAX, i32::MIN, 2147483646),
        (2, 2, i32::MAX, 1, i32::MAX),
    ];
    for (mode, direction, end, low, high) in counters {
        let record = with_number(with(with(PLAIN, 3, mode), 7, direction), 11, end);
        for (position, place) in [(18usize, 15usize), (52, 46), (62, 56)] {
            assert_eq!(rt; verdict(&with_number(record, position, low)), None);
            assert_eq!(rt; verdict(&with_number(record, position, high)), None);
            if let Some(below) = low.checked_sub(1) {
                let outside = with_number(record, position, below);
                assert_eq!(rt; verdict(&outside), Some((7, place)));
            }
            if let Some(above) = high.checked_add(1) {
                let outside = with_number(record, position, above);
                assert_eq!(rt; verdict(&outside), Some((7, place)));
            }
        }
    }
}

#[test]
fn conflicts_alone_and_together(rt: HostRuntime) {
    let upward = with_number(with(PLAIN, 7, 1), 11, 10);
    for load in [false, true] {
        for gate in [false, true] {
            for first in [false, true] {
                for second in [false, true] {
                    let mut record = upward;
                    let mut expected = None;
                    if second {
                        record = with_number(record, 62, 10);
                        expected = Some((7, 56));
                    }
                    if first {
                        record = with_number(record, 52, 10);
                        expected = Some((7, 46));
                    }
                    if gate {
                        record = with(with(record, 33, 4), 37, 1);
                        expected = Some((7, 34));
                    }
                    if load {
                        record = with_number(record, 18, 10);
                        expected = Some((7, 15));
                    }
                    assert_eq!(rt; verdict(&record), expected);
                    assert_eq!(rt; verdict(&with(record, 3, 0)), Some((7, 4)));
                }
            }
        }
    }
    assert_eq!(rt; verdict(&with(with(PLAIN, 3, 0), 7, 2)), Some((7, 4)));
}

#[test]
fn an_inverted_gate_input_belongs_to_the_hardware_gate(rt: HostRuntime) {
    for function in 0..5u8 {
        let record = with(with(PLAIN, 33, function), 37, 1);
        let expected = match function {
            1 => None,
            _ => Some((7, 34)),
        };
        assert_eq!(rt; verdict(&record), expected);
    }
}

#[test]
fn which_refusal_wins(rt: HostRuntime) -> Result<(), Fail> {
    let conflict = with(with(PLAIN, 3, 0), 7, 1);
    assert_eq!(rt; verdict(&conflict), Some((7, 4)));
    assert_eq!(rt; verdict_on_longer(conflict, &rt)?, Some((6, 66)));
    assert_eq!(rt; verdict_on_longer(PLAIN, &rt)?, Some((6, 66)));
    assert_eq!(rt; verdict_on_longer(with(PLAIN, 61, 0), &rt)?, Some((5, 56)));
    assert_eq!(rt; verdict(&with(with(PLAIN, 3, 3), 4, 9)), Some((5, 0)));
    assert_eq!(rt; verdict(&with(conflict, 59, 4)), Some((5, 56)));
    let early = with(PLAIN, 29, 2);
    assert_eq!(rt; verdict(early.get(0..40).ok_or("short")?), Some((5, 26)));
    assert_eq!(rt; verdict(&[]), Some((1, 0)));
    assert_eq!(rt; verdict(&[9, 9]), Some((1, 0)));
    assert_eq!(rt; verdict(&[9, 9, 9]), Some((2, 0)));
    Ok(())
}

fn choices() -> Choices {
    let output = Output {
        behaviour: Behaviour::OnAtOrBelow,
        hysteresis: 255,
        duration: 250,
        comparison: -70000,
    };
    Choices {
        mode: Mode::Periodic,
        direction: MainDirection::Up,
        end: 10,
        load: 3,
        evaluation: PickedEvaluation::Double,
        b_inverted: true,
        di_function: DiFunction::HardwareGate,
        gate_input_inverted: true,
        gate: GateFunction::Interrupt,
        synchronisation: Synchronisation::Periodic,
        output1: output,
        output2: Output {
            behaviour: Behaviour::FollowsBit,
            hysteresis: 0,
            duration: 1,
            comparison: 9,
        },
    }
}

// These choices as a record.
const WRITTEN: [u8; 66] = *b"\
    \x01\x00\x01\x02\
    \x02\x00\x01\x01\
    \x03\x00\x04\x00\x00\x00\x0a\
    \x04\x00\x04\x00\x00\x00\x03\
    \x05\x00\x01\x02\
    \x06\x00\x01\x01\
    \x07\x00\x01\x01\
    \x08\x00\x01\x01\
    \x09\x00\x01\x01\
    \x0a\x00\x01\x01\
    \x0b\x00\x07\x02\xff\xfa\xff\xfe\xee\x90\
    \x0c\x00\x07\x00\x00\x01\x00\x00\x00\x09";

#[test]
fn written_from_choices_and_read_again(rt: HostRuntime) -> Result<(), Fail> {
    let made = Parameters::new(choices())?;
    let mut buffer = [0xa5u8; 70];
    made.write(&mut buffer)?;
    assert_eq!(rt; &buffer[0..66], &WRITTEN[0..66]);
    assert_eq!(rt; &buffer[66..70], &[0xa5u8; 4][0..4]);
    let read = Parameters::read(&WRITTEN)?;
    let mut again = [0u8; 66];
    read.write(&mut again)?;
    assert_eq!(rt; &again[0..66], &WRITTEN[0..66]);
    Ok(())
}

#[test]
fn a_short_buffer_stays_as_it_was(rt: HostRuntime) -> Result<(), Fail> {
    let made = Parameters::new(choices())?;
    let mut buffer = [0xa5u8; 65];
    assert_eq!(rt; made.write(&mut buffer).err().map(told), Some((8, 0)));
    assert_eq!(rt; &buffer[0..65], &[0xa5u8; 65][0..65]);
    assert_eq!(rt; made.write(&mut []).err().map(told), Some((8, 0)));
    Ok(())
}

fn made(choices: Choices) -> Option<(u8, usize)> {
    Parameters::new(choices).err().map(told)
}

#[test]
fn choices_are_refused_as_their_record(rt: HostRuntime) {
    assert_eq!(rt; made(choices()), None);
    let mut c = choices();
    c.output2.duration = 0;
    assert_eq!(rt; made(c), Some((5, 56)));
    c.output1.duration = 251;
    assert_eq!(rt; made(c), Some((5, 46)));
    c.end = 1;
    assert_eq!(rt; made(c), Some((5, 8)));
    let mut c = choices();
    c.output2.comparison = 10;
    assert_eq!(rt; made(c), Some((7, 56)));
    c.output1.comparison = 10;
    assert_eq!(rt; made(c), Some((7, 46)));
    c.di_function = DiFunction::Latch;
    assert_eq!(rt; made(c), Some((7, 34)));
    c.load = 10;
    assert_eq!(rt; made(c), Some((7, 15)));
    c.mode = Mode::Endless;
    assert_eq!(rt; made(c), Some((7, 4)));
    c.end = 1;
    assert_eq!(rt; made(c), Some((5, 8)));
}

#[test]
fn what_is_picked(rt: HostRuntime) -> Result<(), Fail> {
    let parameters = Parameters::read(&WRITTEN)?;
    assert_eq!(rt; parameters.choices().load, 3);
    assert_eq!(rt; parameters.choices().output2.comparison, 9);
    let meaning = parameters.counter().meaning();
    assert_eq!(rt; (meaning.reading, meaning.load), (3, 3));
    assert_eq!(rt; (meaning.low, meaning.high), (i32::MIN, 9));
    assert_eq!(rt; (meaning.overflow.at(), meaning.underflow.at()), (3, 9));
    assert_eq!(rt; meaning.stops, false);
    // Double evaluation counts A rising with B low as up; behind the stage it is down.
    let low = Pair { a: false, b: false };
    let high = Pair { a: true, b: false };
    let inverted = parameters.evaluation();
    assert_eq!(rt; inverted.evaluate(low, high), Some(Pulse::Down));
    let mut direct = choices();
    direct.b_inverted = false;
    let direct = Parameters::new(direct)?;
    assert_eq!(rt; direct.evaluation().evaluate(low, high), Some(Pulse::Up));
    Ok(())
}
