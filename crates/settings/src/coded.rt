// The choices that stand in the record as one byte.
ghost use Rattle.std.specs.Prelude.{◌≡◌, ℕ, List};
ghost use Rattle.settings.specs.Values.{decoded, mode_code, modes, direction_code, directions, evaluation_code, evaluations, flag_code, flags, di_code, di_functions, gate_code, gate_functions, synchronisation_code, synchronisations, behaviour_code, behaviours};

use crate::choices::{Behaviour, DiFunction, GateFunction, Synchronisation};
use counter::{MainDirection, Mode};
use encoder::PickedEvaluation;

// A choice with a code, and all the values that it has.
pub trait Coded: Copy + 'static {
    ghost code: { Self → ℕ };

    ghost all: { List Self };

    // Each impl says `self as u8` for itself, since the cast wants the enum's own type.
    fn code(self) -> u8
        ensures { result ≡ code self };

    fn all() -> &'static [Self]
        ensures { result.now ≡ all };

    // The first value that has this code.
    final fn from_code(byte: u8) -> Option<Self>
        ensures { result ≡ decoded code all byte }
    {
        Self::all()
            .iter()
            .copied()
            .find(|value| byte == value.code())
    }
}

impl Coded for Mode {
    ghost code = { mode_code };

    ghost all = { modes };

    fn code(self) -> u8 {
        self as u8
    }

    fn all() -> &'static [Self] {
        &[Self::Endless, Self::Once, Self::Periodic]
    }
}

impl Coded for MainDirection {
    ghost code = { direction_code };

    ghost all = { directions };

    fn code(self) -> u8 {
        self as u8
    }

    fn all() -> &'static [Self] {
        &[Self::Neither, Self::Up, Self::Down]
    }
}

impl Coded for PickedEvaluation {
    ghost code = { evaluation_code };

    ghost all = { evaluations };

    fn code(self) -> u8 {
        self as u8
    }

    fn all() -> &'static [Self] {
        &[
            Self::PulseDirection,
            Self::Single,
            Self::Double,
            Self::Quadruple,
        ]
    }
}

impl Coded for bool {
    ghost code = { flag_code };

    ghost all = { flags };

    fn code(self) -> u8 {
        u8::from(self)
    }

    fn all() -> &'static [Self] {
        &[false, true]
    }
}

impl Coded for DiFunction {
    ghost code = { di_code };

    ghost all = { di_functions };

    fn code(self) -> u8 {
        self as u8
    }

    fn all() -> &'static [Self] {
        &[
            Self::Input,
            Self::HardwareGate,
            Self::LatchAndRetrigger,
            Self::Synchronisation,
            Self::Latch,
        ]
    }
}

impl Coded for GateFunction {
    ghost code = { gate_code };

    ghost all = { gate_functions };

    fn code(self) -> u8 {
        self as u8
    }

    fn all() -> &'static [Self] {
        &[Self::Cancel, Self::Interrupt]
    }
}

impl Coded for Synchronisation {
    ghost code = { synchronisation_code };

    ghost all = { synchronisations };

    fn code(self) -> u8 {
        self as u8
    }

    fn all() -> &'static [Self] {
        &[Self::Once, Self::Periodic]
    }
}

impl Coded for Behaviour {
    ghost code = { behaviour_code };

    ghost all = { behaviours };

    fn code(self) -> u8 {
        self as u8
    }

    fn all() -> &'static [Self] {
        &[
            Self::FollowsBit,
            Self::OnAtOrAbove,
            Self::OnAtOrBelow,
            Self::Pulse,
        ]
    }
}
