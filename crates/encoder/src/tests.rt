// Worked examples of each evaluation and of the inversion stage.
use crate::double::Double;
use crate::evaluation::{Evaluation, Pulse};
use crate::inversion::Staged;
use crate::lines::{Levels, NoLevelByte, Pair};
use crate::picked::PickedEvaluation;
use crate::pulse_direction::PulseDirection;
use crate::quadruple::Quadruple;
use crate::single::Single;

const P00: Pair = Pair { a: false, b: false };

const P10: Pair = Pair { a: true, b: false };

const P11: Pair = Pair { a: true, b: true };

const P01: Pair = Pair { a: false, b: true };

const TURN: [Pair; 5] = [P00, P10, P11, P01, P00];

const TURN_BACK: [Pair; 5] = [P00, P01, P11, P10, P00];

const TREMBLE: [Pair; 9] = [P00, P10, P00, P10, P11, P10, P11, P10, P00];

// The pulses up and down over a walk of the pairs.
fn pulses<E: Evaluation>(evaluation: &E, walk: &[Pair]) -> (u8, u8) {
    let mut up: u8 = 0;
    let mut down: u8 = 0;
    for step in walk.windows(2) {
        match evaluation.evaluate(step[0], step[1]) {
            Some(Pulse::Up) => up = up.saturating_add(1),
            Some(Pulse::Down) => down = down.saturating_add(1),
            None => {}
        }
    }
    (up, down)
}

#[test]
fn a_turn_and_back(rt: HostRuntime) {
    assert_eq!(rt; pulses(&PulseDirection, &TURN), (1, 0));
    assert_eq!(rt; pulses(&PulseDirection, &TURN_BACK), (0, 1));
    assert_eq!(rt; pulses(&Single, &TURN), (1, 0));
    assert_eq!(rt; pulses(&Single, &TURN_BACK), (0, 1));
    assert_eq!(rt; pulses(&Double, &TURN), (2, 0));
    assert_eq!(rt; pulses(&Double, &TURN_BACK), (0, 2));
    assert_eq!(rt; pulses(&Quadruple, &TURN), (4, 0));
    assert_eq!(rt; pulses(&Quadruple, &TURN_BACK), (0, 4));
}

// Trembling on an edge takes back what it gave, but for pulse and direction, which has no way back.
#[test]
fn a_shaft_that_trembles(rt: HostRuntime) {
    assert_eq!(rt; pulses(&PulseDirection, &TREMBLE), (2, 0));
    assert_eq!(rt; pulses(&Single, &TREMBLE), (2, 2));
    assert_eq!(rt; pulses(&Double, &TREMBLE), (2, 2));
    assert_eq!(rt; pulses(&Quadruple, &TREMBLE), (4, 4));
}

#[test]
fn both_lines_at_once_answer_nothing(rt: HostRuntime) {
    for (old, new) in [(P00, P11), (P11, P00), (P10, P01), (P01, P10)] {
        assert!(rt; old.both_differ(new));
        assert_eq!(rt; Single.evaluate(old, new), None);
        assert_eq!(rt; Quadruple.evaluate(old, new), None);
    }
    assert!(rt; !P00.both_differ(P10));
}

#[test]
fn inverted_b_turns_the_direction(rt: HostRuntime) {
    let inverted = Staged::new(Quadruple, true);
    assert_eq!(rt; inverted.evaluate(P00, P10), Some(Pulse::Down));
    assert_eq!(rt; pulses(&inverted, &TURN), (0, 4));
    assert_eq!(rt; pulses(&Staged::new(Quadruple, false), &TURN), (4, 0));
}

#[test]
fn picked_answers_as_its_kind(rt: HostRuntime) {
    assert_eq!(rt;
        pulses(&PickedEvaluation::PulseDirection, &TURN_BACK),
        (0, 1)
    );
    assert_eq!(rt; pulses(&PickedEvaluation::Single, &TREMBLE), (2, 2));
    assert_eq!(rt; pulses(&PickedEvaluation::Double, &TURN), (2, 0));
    assert_eq!(rt; pulses(&PickedEvaluation::Quadruple, &TURN), (4, 0));
}

#[test]
fn level_bytes(rt: HostRuntime) {
    assert_eq!(rt;
        Levels::try_from(5),
        Ok(Levels {
            pair: P10,
            di: true,
        })
    );
    assert_eq!(rt;
        Levels::try_from(2),
        Ok(Levels {
            pair: P01,
            di: false,
        })
    );
    assert_eq!(rt; Levels::try_from(8), Err(NoLevelByte));
}
