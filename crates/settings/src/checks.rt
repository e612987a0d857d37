// What choices must keep to: the ranges of single fields, and the agreement of fields with others.
ghost use Rattle.std.specs.Prelude.{◌≡◌};
ghost use Rattle.settings.specs.Values.{duration_fits};
ghost use Rattle.settings.specs.Checks.{first_out_of_range, within, direction_agrees, gate_input_agrees, first_conflict};

use crate::choices::{Choices, DiFunction, Output};
use crate::field::Field;
use counter::{MainDirection, Mode};

pub const LEAST_END: i32 = 2;

const SHORTEST_DURATION: u8 = 1;

const LONGEST_DURATION: u8 = 250;

impl Output {
    // Whether its duration is in range, whatever its behaviour.
    pub(crate) fn duration_fits(&self) -> bool
        ensures { result ≡ duration_fits self.now.duration }
    {
        (SHORTEST_DURATION..=LONGEST_DURATION).contains(&self.duration)
    }
}

impl Choices {
    // The first field whose value is out of its range.
    pub(crate) fn out_of_range(&self) -> Option<Field>
        ensures { result ≡ first_out_of_range self.now }
    {
        if self.end < LEAST_END {
            return Some(Field::End);
        }
        if !self.output1.duration_fits() {
            return Some(Field::Output1);
        }
        if !self.output2.duration_fits() {
            return Some(Field::Output2);
        }
        None
    }

    // Whether a value lies within the limits of the counter that is picked.
    fn within_limits(&self, value: i32) -> bool
        ensures { result ≡ within self.now value }
    {
        match (self.mode, self.direction) {
            (Mode::Endless, _) | (_, MainDirection::Neither) => true,
            (_, MainDirection::Up) => value < self.end,
            (_, MainDirection::Down) => (1..=self.end).contains(&value),
        }
    }

    // An endless counter has no main count direction.
    fn direction_agrees(&self) -> bool
        ensures { result ≡ direction_agrees self.now }
    {
        !matches!(
            (self.mode, self.direction),
            (Mode::Endless, MainDirection::Up | MainDirection::Down)
        )
    }

    // Only the input of the hardware gate can be inverted.
    fn gate_input_agrees(&self) -> bool
        ensures { result ≡ gate_input_agrees self.now }
    {
        !self.gate_input_inverted || matches!(self.di_function, DiFunction::HardwareGate)
    }

    // The first field that conflicts with another.
    pub(crate) fn conflict(&self) -> Option<Field>
        ensures { result ≡ first_conflict self.now }
    {
        if !self.direction_agrees() {
            return Some(Field::Direction);
        }
        if !self.within_limits(self.load) {
            return Some(Field::Load);
        }
        if !self.gate_input_agrees() {
            return Some(Field::GateInputInverted);
        }
        if !self.within_limits(self.output1.comparison) {
            return Some(Field::Output1);
        }
        if !self.within_limits(self.output2.comparison) {
            return Some(Field::Output2);
        }
        None
    }
}
