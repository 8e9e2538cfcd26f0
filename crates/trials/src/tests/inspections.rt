use super::{passes, refused};
use crate::{header, tray_bytes};
use devices::device::{Cause, Device};
use devices::inspection::{TrayFault, TrayQuestion, inspect};
use devices::tray::Tray;
use std::alloc::Global;
use std::process::Abort;
use std::test::Fail;

// A byte of a sound tray, what it is changed to, and the refusal that follows, in the order of the questions.
const WRONG: [(usize, u8, TrayQuestion, usize); 15] = [
    (1, 0, TrayQuestion::Tracks, 0),
    (2, 0, TrayQuestion::Sides, 2),
    (2, 3, TrayQuestion::Sides, 2),
    (3, 0, TrayQuestion::Sectors, 3),
    (3, 65, TrayQuestion::Sectors, 3),
    (4, 0, TrayQuestion::Interleave, 4),
    (4, 4, TrayQuestion::Interleave, 4),
    (4, 10, TrayQuestion::Interleave, 4),
    (4, 11, TrayQuestion::Interleave, 4),
    (5, 1, TrayQuestion::Spare, 5),
    (6, 128, TrayQuestion::Spare, 6),
    (7, 255, TrayQuestion::Spare, 7),
    (8, 2, TrayQuestion::State, 8),
    (13, 255, TrayQuestion::State, 13),
    (27, 2, TrayQuestion::State, 27),
];

// A sound tray of 20 sectors.
fn sound(heap: Global) -> Result<Vec<u8>, Fail> {
    Ok(tray_bytes(heap, header(2, 1, 10, 3), &[])?)
}

fn set(rt: &impl Abort, bytes: &mut [u8], at: usize, value: u8) {
    assert!(rt; at < bytes.len());
    bytes[at] = value;
}

fn failed(rt: &impl Abort, bytes: &[u8], question: TrayQuestion, place: usize) -> Result<(), Fail> {
    assert_eq!(rt; inspect(bytes), Err(TrayFault { question, place }));
    Ok(())
}

#[test]
fn a_sound_tray_tells_its_geometry(rt: HostRuntime) -> Result<(), Fail> {
    let geometry = inspect(sound(rt.alloc())?.as_slice())?;
    assert_eq!(rt; geometry.tracks, 2);
    assert_eq!(rt; geometry.sides, 1);
    assert_eq!(rt; geometry.sectors_per_track, 10);
    assert_eq!(rt; geometry.interleave, 3);
    assert_eq!(rt; geometry.total(), 20);
    let bytes = tray_bytes(rt.alloc(), header(258, 2, 1, 1), &[])?;
    let geometry = inspect(bytes.as_slice())?;
    assert_eq!(rt; geometry.tracks, 258);
    assert_eq!(rt; geometry.sides, 2);
    assert_eq!(rt; geometry.total(), 516);
    Ok(())
}

#[test]
fn a_short_header_is_refused(rt: HostRuntime) -> Result<(), Fail> {
    let mut bytes = header(1, 1, 1, 1).to_vec(rt.alloc())?;
    for _ in 0..8 {
        let _ = bytes.pop();
        failed(&rt, bytes.as_slice(), TrayQuestion::Header, 0)?;
    }
    assert_eq!(rt; bytes.len(), 0);
    Ok(())
}

#[test]
fn the_first_wrong_byte_is_told(rt: HostRuntime) -> Result<(), Fail> {
    for (k, (at, value, question, place)) in WRONG.into_iter().enumerate() {
        let mut bytes = sound(rt.alloc())?;
        set(&rt, bytes.as_mut_slice(), at, value);
        failed(&rt, bytes.as_slice(), question, place)?;
        for (later, other, _, _) in WRONG.into_iter().skip(k) {
            let mut bytes = sound(rt.alloc())?;
            set(&rt, bytes.as_mut_slice(), later, other);
            set(&rt, bytes.as_mut_slice(), at, value);
            failed(&rt, bytes.as_slice(), question, place)?;
        }
    }
    Ok(())
}

#[test]
fn a_wrong_length_is_told(rt: HostRuntime) -> Result<(), Fail> {
    let mut bytes = sound(rt.alloc())?;
    bytes.push(0)?;
    failed(&rt, bytes.as_slice(), TrayQuestion::Length, 8)?;
    // before the states, and after the header
    set(&rt, bytes.as_mut_slice(), 8, 2);
    failed(&rt, bytes.as_slice(), TrayQuestion::Length, 8)?;
    set(&rt, bytes.as_mut_slice(), 7, 1);
    failed(&rt, bytes.as_slice(), TrayQuestion::Spare, 7)?;
    let mut bytes = sound(rt.alloc())?;
    let _ = bytes.pop();
    failed(&rt, bytes.as_slice(), TrayQuestion::Length, 8)?;
    bytes.truncate(8);
    failed(&rt, bytes.as_slice(), TrayQuestion::Length, 8)
}

#[test]
fn a_failed_tray_has_no_sectors(rt: HostRuntime) -> Result<(), Fail> {
    let heap = rt.alloc();
    for (at, value, _, _) in WRONG {
        let mut bytes = sound(heap)?;
        set(&rt, bytes.as_mut_slice(), at, value);
        let mut tray = Tray::new(bytes.clone()?);
        assert_eq!(rt; tray.count(), 0);
        refused(&rt, heap, &mut tray, 0, 255, Cause::Length)?;
        refused(&rt, heap, &mut tray, 0, 256, Cause::Range)?;
        assert!(rt; tray.into_bytes() == bytes);
    }
    Ok(())
}

// Whether steps of the interleave come to every place of a track before they come back to the first.
fn goes_round(sectors: u8, interleave: u8) -> bool {
    (1..sectors).all(|steps| u16::from(steps) * u16::from(interleave) % u16::from(sectors) != 0)
}

// In a lawful geometry of two tracks each sector has a place of its own, in its own track.
fn places_differ(rt: &impl Abort, heap: Global, sectors: u8, interleave: u8) -> Result<(), Fail> {
    let bytes = tray_bytes(heap, header(1, 2, sectors, interleave), &[])?;
    if !goes_round(sectors, interleave) {
        return failed(rt, bytes.as_slice(), TrayQuestion::Interleave, 4);
    }
    let geometry = inspect(bytes.as_slice())?;
    let across = geometry.sectors_per_track;
    let mut seen = vec![in heap; false; geometry.total()]?;
    for lsn in 0..2 * usize::from(sectors) {
        let place = geometry.place(lsn).ok_or("no place")?;
        assert!(rt; place < seen.len() && !seen[place]);
        assert!(rt; place / across == lsn / across);
        seen[place] = true;
    }
    assert_eq!(rt; seen.contains(&false), false);
    assert_eq!(rt; geometry.place(geometry.total()), None);
    Ok(())
}

#[test]
fn every_sector_has_a_place_of_its_own(rt: HostRuntime) -> Result<(), Fail> {
    for sectors in 1..=64 {
        for interleave in 1..=sectors {
            let checked = places_differ(&rt, rt.alloc(), sectors, interleave);
            passes(
                &rt,
                checked,
                format_args!("{sectors} sectors, interleave {interleave}"),
            )?;
        }
    }
    Ok(())
}
