// The control states of endpoint 0 and the length that is left to send (the source's control_state.rs).
// The source keeps both in atomics behind `&self`; here a value goes in and the changed value comes out.

#![tactic(auto)]

ghost use Rattle.std.specs.Prelude.{◌≡◌};
ghost use Rattle.control_state.specs.Control.{idle, with_state, with_tx_len, decreased};
ghost use Rattle.control_state.specs.Numbers.{state_number};

#[derive(Clone, Copy, Default)]
pub enum ControlStateEnum {
    #[default]
    Idle,
    Setup,
    DataIn,
    DataOut,
    Accepted,
    NodataPhase,
}

#[derive(Clone, Copy, Default)]
pub struct ControlState {
    pub state: ControlStateEnum,
    pub tx_len: u32,
}

impl ControlState {
    pub fn new() -> Self
        ensures { result ≡ idle }
    {
        Self::default()
    }

    pub fn set_state(self, state: ControlStateEnum) -> Self
        ensures { result ≡ with_state self state }
    {
        Self { state, ..self }
    }

    pub fn get_state(self) -> ControlStateEnum
        ensures { result ≡ self.state }
    {
        self.state
    }

    pub fn reset_tx_len(self) -> Self
        ensures { result ≡ with_tx_len self 0 }
    {
        self.set_tx_len(0)
    }

    pub fn set_tx_len(self, tx_len: u32) -> Self
        ensures { result ≡ with_tx_len self tx_len }
    {
        Self { tx_len, ..self }
    }

    // Document 01: "the remaining length falls, never below 0".
    pub fn decrease_tx_len(self, len: u32) -> Self
        ensures { result ≡ decreased self len }
    {
        self.set_tx_len(self.tx_len.saturating_sub(len))
    }

    pub fn get_tx_len(self) -> u32
        ensures { result ≡ self.tx_len }
    {
        self.tx_len
    }
}

// The source's `state as u8`.
impl From<ControlStateEnum> for u8 {
    ghost from_gives = { λ s n. n ≡ state_number s };

    fn from(state: ControlStateEnum) -> u8 {
        match state {
            ControlStateEnum::Idle => 0,
            ControlStateEnum::Setup => 1,
            ControlStateEnum::DataIn => 2,
            ControlStateEnum::DataOut => 3,
            ControlStateEnum::Accepted => 4,
            ControlStateEnum::NodataPhase => 5,
        }
    }
}
