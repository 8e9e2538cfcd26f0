ghost use Rattle.std.specs.Prelude.{◌≡◌, ◌+◌, ◌*◌, ◌<◌};
ghost use Rattle.std.specs.Char.{digit_value};
ghost use Rattle.std.specs.Option.{SomeIff};

use super::case::CaseFault;

// The byte that two hexadecimal digits show.
// Each goes through `to_digit`, for `u8::from_str_radix` would take "+A" as well.
fn byte_of(high: u8, low: u8) -> Option<u8>
    ensures { SomeIff result ((digit_value high < 16) × (digit_value low < 16)) (digit_value high * 16 + digit_value low) }
{
    let high = char::from(high).to_digit(16)?;
    let low = char::from(low).to_digit(16)?;
    Some((high * 16 + low) as u8)
}

// The place of a byte that is written LSN+OFFSET.
fn place_of(text: &str) -> Result<usize, CaseFault> {
    let (lsn, offset) = text.split_once('+').ok_or(CaseFault::Word)?;
    Ok(usize::from(lsn.parse::<u16>()?) * 256 + usize::from(offset.parse::<u8>()?))
}

// Changes bytes as a word LSN+OFFSET:DIGITS says.
pub fn change_bytes(bytes: &mut [u8], word: &str) -> Result<(), CaseFault> {
    let (place, digits) = word.split_once(':').ok_or(CaseFault::Word)?;
    // cut, not skipped: a `skip` goes over every byte before the place
    let place = place_of(place)?.min(bytes.len());
    let mut places = bytes[place..].iter_mut();
    for pair in digits.as_bytes().chunks(2) {
        let [high, low] = pair else {
            return Err(CaseFault::Word);
        };
        let byte = places.next().ok_or(CaseFault::Word)?;
        *byte = byte_of(*high, *low).ok_or(CaseFault::Word)?;
    }
    Ok(())
}
