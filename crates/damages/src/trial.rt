use super::answer::{Answer, Passed};
use super::case::{Asked, Case, CaseFault};
use devices::device::Device;
use devices::flat::FlatImage;
use devices::tray::Tray;
use std::alloc::{AllocError, Global};
use survey::waiting::Waiting;
use volume::survey_volume::survey;

fn survey_case<D: Device>(heap: Global, device: &D, asked: Asked) -> Result<Answer, AllocError> {
    let count = device.count();
    let mut marks = vec![in heap; 0u8; asked.marks.unwrap_or(count)]?;
    let mut waiting = vec![in heap; Waiting::UNUSED; asked.waiting.unwrap_or(count)]?;
    let surveyed = survey(
        device,
        asked.allocation,
        marks.as_mut_slice(),
        waiting.as_mut_slice(),
    );
    Ok(surveyed.map(|volume| Passed {
        total: volume.total(),
        root: volume.root(),
    }))
}

// The bytes of a tray with the sectors of an image, a track for each, of which some are bad.
fn tray_of(heap: Global, image: &[u8], bad: &[usize]) -> Result<Vec<u8>, CaseFault> {
    let count = image.len() / 256;
    let [high, low] = u16::try_from(count)?.to_be_bytes();
    let mut bytes = [high, low, 1, 1, 1, 0, 0, 0].to_vec(heap)?;
    bytes.extend((0..count).map(|lsn| u8::from(bad.contains(&lsn))))?;
    bytes.extend_from_slice(&image[..count * 256])?;
    Ok(bytes)
}

// Surveys a case: on a flat image, or on a tray where sectors are bad.
pub fn try_case(heap: Global, case: Case) -> Result<Answer, CaseFault> {
    let Case { bytes, bad, asked } = case;
    if bad.is_empty() {
        return Ok(survey_case(heap, &FlatImage::new(bytes), asked)?);
    }
    let tray = tray_of(heap, bytes.as_slice(), bad.as_slice())?;
    Ok(survey_case(heap, &Tray::new(tray), asked)?)
}
