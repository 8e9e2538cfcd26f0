ghost use Rattle.std.specs.Prelude.{◌≡◌, Decides};
ghost use Rattle.devices.specs.Geometry.{Suits};
ghost use Rattle.devices.specs.Tray.{HeaderRead, Inspected};

use super::device::SECTOR;
use super::geometry::Geometry;

// How many bytes the header of a tray has: the states begin here.
pub const HEADER: usize = 8;

// Where the spare bytes of the header begin, which are zero: they are its last three.
const SPARE: usize = 5;

// The state of a sector that can be read and written.
pub const GOOD: u8 = 0;

// The state of a sector that can not.
pub const BAD: u8 = 1;

// The questions of an inspection, in the order in which they are asked.
#[derive(Clone, Copy, PartialEq, Eq, Debug)]
pub enum TrayQuestion {
    // are there 8 bytes
    Header,
    // is there a track
    Tracks,
    // is there one side, or are there two
    Sides,
    // are there 1 to 64 sectors to a track
    Sectors,
    // is the interleave from 1 to the sectors of a track, with no common factor
    Interleave,
    // are the other bytes of the header zero
    Spare,
    // are there as many bytes as the header tells of
    Length,
    // is each state good or bad
    State,
}

// The refusal of a tray: the question that failed, and the offset of the byte where it did.
#[derive(Clone, Copy, PartialEq, Eq, Debug)]
pub struct TrayFault {
    pub question: TrayQuestion,
    pub place: usize,
}

impl TrayFault {
    // The number of a tray's refusal.
    pub const NUMBER: u8 = 21;

    fn at(question: TrayQuestion, place: usize) -> TrayFault
        ensures { (result.question ≡ question) × (result.place ≡ place) }
    {
        TrayFault { question, place }
    }
}

// Whether an interleave is from 1 to the sectors of a track, and has no common factor with them but 1.
fn suits(interleave: usize, sectors: usize) -> bool
    ensures { Decides result (Suits interleave sectors) }
{
    let 1.. = interleave else {
        return false;
    };
    let true = interleave <= sectors else {
        return false;
    };
    !(2..=interleave).any(|factor| interleave % factor == 0 && sectors % factor == 0)
}

// The geometry that the header tells of: tracks, the high byte first, sides, sectors to a track, interleave, and the
// spare bytes.
fn read_header(bytes: &[u8]) -> Result<Geometry, TrayFault>
    ensures { HeaderRead bytes.now result }
{
    let [high, low, sides, sectors, interleave, _, _, _, ..] = bytes else {
        return Err(TrayFault::at(TrayQuestion::Header, 0));
    };
    let tracks @ 1.. = usize::from(u16::from_be_bytes([*high, *low])) else {
        return Err(TrayFault::at(TrayQuestion::Tracks, 0));
    };
    let sides @ 1..=2 = usize::from(*sides) else {
        return Err(TrayFault::at(TrayQuestion::Sides, 2));
    };
    let sectors_per_track @ 1..=64 = usize::from(*sectors) else {
        return Err(TrayFault::at(TrayQuestion::Sectors, 3));
    };
    let interleave = usize::from(*interleave);
    let true = suits(interleave, sectors_per_track) else {
        return Err(TrayFault::at(TrayQuestion::Interleave, 4));
    };
    for (k, byte) in bytes[SPARE..HEADER].iter().enumerate() {
        let 0 = *byte else {
            return Err(TrayFault::at(TrayQuestion::Spare, SPARE + k));
        };
    }
    Ok(Geometry {
        tracks,
        sides,
        sectors_per_track,
        interleave,
    })
}

// The geometry of a tray, or the first of the questions that it fails.
pub fn inspect(bytes: &[u8]) -> Result<Geometry, TrayFault>
    ensures { Inspected bytes.now result }
{
    let geometry = read_header(bytes)?;
    let total = geometry.total();
    let true = bytes.len() == HEADER + total + total * SECTOR else {
        return Err(TrayFault::at(TrayQuestion::Length, HEADER));
    };
    for (place, state) in bytes[HEADER..HEADER + total].iter().enumerate() {
        let (GOOD | BAD) = *state else {
            return Err(TrayFault::at(TrayQuestion::State, HEADER + place));
        };
    }
    Ok(geometry)
}
