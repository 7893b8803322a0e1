//! The word of a slot: how many uses of the slot are over, and what the current one is at. Both stand in one
//! number, so that one atomic step changes both. This file alone knows how they are packed.
ghost use Rattle.std.specs.Prelude.{◌≡◌, ◌≤◌, ◌^◌};
ghost use Rattle.timeout_mgr.specs.Word.{bits_of, word_of};

/// How many numbers a use has for its states.
const STATES: u64 = 8;

/// What a slot is at.
#[derive(Clone, Copy)]
pub(crate) enum SlotState {
    /// It has no watch, and the next add may take it.
    Free,
    /// An add took it and brings its opening in.
    Making,
    /// Its watch lives, and was added or tickled since the last sweep.
    Active,
    /// Its watch lives, and a sweep was the last that came by.
    Inactive,
    /// Its watch has ended, and its opening is being taken out.
    Leaving,
}

/// What a word says.
#[derive(Clone, Copy)]
pub(crate) struct Word {
    pub(crate) uses: u64,
    pub(crate) state: SlotState,
}

impl Word {
    /// The word as it stands in the table.
    pub(crate) fn bits(self) -> u64
        requires { self.uses ≤ 2 ^ 40 }
        ensures { result ≡ bits_of self }
    {
        let state = match self.state {
            SlotState::Free => 0,
            SlotState::Making => 1,
            SlotState::Active => 2,
            SlotState::Inactive => 3,
            SlotState::Leaving => 4,
        };
        STATES * self.uses + state
    }

    /// What the number says that was found in the table.
    pub(crate) fn of_bits(bits: u64) -> Word
        ensures { result ≡ word_of bits }
    {
        let state = match bits % STATES {
            0 => SlotState::Free,
            1 => SlotState::Making,
            2 => SlotState::Active,
            3 => SlotState::Inactive,
            _ => SlotState::Leaving,
        };
        Word {
            uses: bits / STATES,
            state,
        }
    }
}
