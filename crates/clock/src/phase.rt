// Times, and the phases that they begin.
ghost use Rattle.std.specs.Prelude.{◌≡◌};
ghost use Rattle.clock.specs.Phases.{is_time, begin_of, phase_at};

/// The last time of a day, in seconds after midnight. The first is 0.
const LAST_TIME: u32 = 86_399;

/// Whether `time` is one of a day.
pub fn is_time(time: u32) -> bool
    ensures value { result ≡ is_time time }
{
    time <= LAST_TIME
}

/// A part of the day. Each lasts until the next begins.
#[derive(Clone, Copy, PartialEq, Eq, Debug)]
pub enum Phase {
    /// From midnight.
    Regular = 0,
    /// From 15:45: M and L come in only against a mandatory notice; M, L and O go off only in error.
    Imbalance = 56_700,
    /// From 15:58: M, L and O go off no more.
    Final = 57_480,
    /// From 16:00: the close; of orders only C and D come in and go off.
    Closing = 57_600,
}

impl Phase {
    /// The time at which the phase begins.
    pub fn begin(self) -> u32
        ensures value { result ≡ begin_of self }
    {
        self as u32
    }

    /// The phase at `time`. From 16:00 on it is the last, whatever the number.
    pub fn at(time: u32) -> Phase
        ensures value { result ≡ phase_at time }
    {
        if time < Phase::Imbalance.begin() {
            Phase::Regular
        } else if time < Phase::Final.begin() {
            Phase::Imbalance
        } else if time < Phase::Closing.begin() {
            Phase::Final
        } else {
            Phase::Closing
        }
    }
}
