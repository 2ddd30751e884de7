//! A word is one number: the generation times 2^24, plus who ended it times 2^8, plus the number of its phase.
ghost use Rattle.std.specs.Prelude.{◌≡◌, ◌^◌, ◌<◌};
ghost use Rattle.aio_word.specs.Word.{code, word_of, generation_of, by_of, phase_of};

use crate::phase::Phase;

// The last generation of a slot.
pub(crate) const LAST: u64 = (1 << 40) - 1;

const GENERATION: u64 = 1 << 24;

const BY: u64 = 1 << 8;

// The word of an operation. What is read back from it is what it was made of.
pub(crate) fn word_with(generation: u64, phase: Phase, by: u32) -> u64
    requires generation { generation < 2 ^ 40 }
    requires by { by < 2 ^ 16 }
    ensures value { result ≡ word_of generation phase by }
    ensures generation { generation_of result ≡ generation }
    ensures phase { phase_of result ≡ phase }
    ensures by { by_of result ≡ by }
{
    generation * GENERATION + u64::from(by) * BY + number_of(phase)
}

pub(crate) fn generation_in(word: u64) -> u64
    ensures { result ≡ generation_of word }
{
    word / GENERATION
}

pub(crate) fn by_in(word: u64) -> u32
    ensures { result ≡ by_of word }
{
    (word / BY % 65536) as u32
}

pub(crate) fn phase_in(word: u64) -> Phase
    ensures { result ≡ phase_of word }
{
    match word % BY {
        0 => Phase::Idle,
        1 => Phase::Pending,
        2 => Phase::Won,
        3 => Phase::Shut,
        4 => Phase::Superseded,
        5 => Phase::SurveyOver,
        6 => Phase::Cancelled,
        _ => Phase::Expired,
    }
}

fn number_of(phase: Phase) -> u64
    ensures { result ≡ code phase }
{
    match phase {
        Phase::Idle => 0,
        Phase::Pending => 1,
        Phase::Won => 2,
        Phase::Shut => 3,
        Phase::Superseded => 4,
        Phase::SurveyOver => 5,
        Phase::Cancelled => 6,
        Phase::Expired => 7,
    }
}
