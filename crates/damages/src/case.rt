use super::change::change_bytes;
use std::alloc::{AllocError, AllocFailed, Global};
use std::num::{ParseIntError, TryFromIntError};

// A damaged copy of a volume, the sectors of it that are bad, and how it is surveyed.
#[derive(Drop)]
pub struct Case {
    pub bytes: Vec<u8>,
    pub bad: Vec<usize>,
    pub asked: Asked,
}

// The arguments of a survey: the allocation size, and the lengths of the work lists (the device's sectors, where none is given).
#[derive(Clone, Copy, PartialEq, Eq, Debug)]
pub struct Asked {
    pub allocation: usize,
    pub marks: Option<usize>,
    pub waiting: Option<usize>,
}

// Why a case was not tried: there was no memory, or a word is none of a case's.
#[derive(Clone, Copy, PartialEq, Eq, Debug)]
pub enum CaseFault {
    Memory,
    Word,
}

impl From<AllocError> for CaseFault {
    fn from(_: AllocError) -> CaseFault {
        CaseFault::Memory
    }
}

impl<T: Drop> From<AllocFailed<T>> for CaseFault {
    fn from(_: AllocFailed<T>) -> CaseFault {
        CaseFault::Memory
    }
}

impl From<ParseIntError> for CaseFault {
    fn from(_: ParseIntError) -> CaseFault {
        CaseFault::Word
    }
}

impl From<TryFromIntError> for CaseFault {
    fn from(_: TryFromIntError) -> CaseFault {
        CaseFault::Word
    }
}

// The most sectors that a case can ask for.
const MOST: usize = 65537;

impl Case {
    // Takes in an option, NAME=NUMBER.
    fn set_option(&mut self, name: &str, value: &str) -> Result<(), CaseFault> {
        let number = value.parse::<usize>()?;
        match name {
            "allocation" => self.asked.allocation = number,
            "marks" => self.asked.marks = Some(number),
            "waiting" => self.asked.waiting = Some(number),
            "bad" => self.bad.push(number)?,
            "sectors" if number <= MOST => self.bytes.resize(number * 256, 0)?,
            _ => return Err(CaseFault::Word),
        }
        Ok(())
    }

    fn take_word(&mut self, word: &str) -> Result<(), CaseFault> {
        match word.split_once('=') {
            Some((name, value)) => self.set_option(name, value),
            None => change_bytes(self.bytes.as_mut_slice(), word),
        }
    }
}

// A copy of the base volume, changed as the words say, one after the other.
pub fn read_case(heap: Global, base: &[u8], words: &str) -> Result<Case, CaseFault> {
    let mut case = Case {
        bytes: base.to_vec(heap)?,
        bad: Vec::new(heap),
        asked: Asked {
            allocation: 8,
            marks: None,
            waiting: None,
        },
    };
    for word in words.split_whitespace() {
        case.take_word(word)?;
    }
    Ok(case)
}
