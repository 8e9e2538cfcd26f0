use super::formats::recorded;
use super::refused;
use crate::new_volume::NewVolume;
use crate::{header, sector_at, tray_bytes};
use devices::device::{Cause, DeviceFault};
use devices::inspection::inspect;
use devices::tray::Tray;
use devices::window::Window;
use std::alloc::Global;
use std::process::Abort;
use std::test::Fail;
use volume::count::clear_sectors;
use volume::fault::{Layer, Part, VolumeFault};
use volume::format::format;

// Makes a sector of a sound tray bad.
fn spoil(rt: &impl Abort, bytes: &mut [u8], lsn: usize) -> Result<(), Fail> {
    let place = inspect(bytes)?.place(lsn).ok_or("no place")?;
    assert!(rt; 8 < bytes.len() && place < bytes.len() - 8);
    bytes[8 + place] = 1;
    Ok(())
}

// A tray of 250 sectors or, with a map of two sectors, of 2,050, where some sectors are bad.
fn spoilt(rt: &impl Abort, heap: Global, is_large: bool, bad: &[usize]) -> Result<Vec<u8>, Fail> {
    let header = if is_large {
        header(41, 1, 50, 7)
    } else {
        header(25, 1, 10, 3)
    };
    let mut bytes = tray_bytes(heap, header, &[])?;
    for lsn in bad {
        spoil(rt, bytes.as_mut_slice(), *lsn)?;
    }
    Ok(bytes)
}

// The sectors of a tray by their LSNs, the bad ones too.
fn in_order(rt: &impl Abort, heap: Global, bytes: &[u8]) -> Result<Vec<u8>, Fail> {
    let geometry = inspect(bytes)?;
    let total = geometry.total();
    assert!(rt; total < 65536);
    let mut sectors = Vec::new(heap);
    for lsn in 0..total {
        let place = geometry.place(lsn).ok_or("no place")?;
        assert!(rt; place < total);
        sectors.extend_from_slice(&sector_at(bytes, 8 + total + place * 256))?;
    }
    Ok(sectors)
}

// Two trays have the same header and the same states.
fn alike(rt: &impl Abort, before: &[u8], after: &[u8]) -> Result<(), Fail> {
    assert_eq!(rt; before.len(), after.len());
    let total = inspect(before)?.total();
    assert!(rt; total < 65536 && 8 + total <= before.len());
    assert_eq!(rt; &before[..8 + total], &after[..8 + total]);
    Ok(())
}

// A volume that begins with a sector of a tray is as it should be, and the tray has not changed elsewhere.
fn laid(
    rt: &impl Abort,
    heap: Global,
    expected: &NewVolume,
    start: u8,
    before: &[u8],
    after: &[u8],
) -> Result<(), Fail> {
    alike(rt, before, after)?;
    let old = in_order(rt, heap, before)?;
    let new = in_order(rt, heap, after)?;
    let from = usize::from(start) * 256;
    assert!(rt; from <= old.len() && from <= new.len());
    let (old_head, old_rest) = old.as_slice().split_at(from);
    let (new_head, new_rest) = new.as_slice().split_at(from);
    assert!(rt; old_head == new_head);
    assert_eq!(rt; expected.first_difference(old_rest, new_rest), None);
    Ok(())
}

// The refusal is a device's, of a bad sector.
fn is_bad(rt: &impl Abort, fault: VolumeFault, lsn: usize, part: Part) -> Result<(), Fail> {
    assert_eq!(rt; fault.number(), 14);
    assert_eq!(rt; fault.place(), lsn);
    assert_eq!(rt; fault.layer(), Layer::Devices);
    let VolumeFault::Device(reading) = fault else {
        return Err(Fail::new("not a device's refusal"));
    };
    assert_eq!(rt; reading.part, part);
    let cause = Cause::Bad;
    assert_eq!(rt; reading.fault, DeviceFault { cause, lsn });
    Ok(())
}

fn unformatted(
    rt: &impl Abort,
    heap: Global,
    total: usize,
    bad: &[usize],
    lsn: usize,
    reading: Part,
) -> Result<(), Fail> {
    let bytes = spoilt(rt, heap, total > 250, bad)?;
    let mut tray = Tray::new(bytes.clone()?);
    let fault = format(&mut tray, total, b"Worn", 8)
        .err()
        .ok_or("a volume was made")?;
    is_bad(rt, fault, lsn, reading)?;
    assert!(rt; tray.into_bytes() == bytes);
    Ok(())
}

#[test]
fn a_bad_sector_that_would_be_written_is_refused(rt: HostRuntime) -> Result<(), Fail> {
    for (lsn, part) in [
        (0, Part::Identification),
        (1, Part::Map),
        (2, Part::Descriptor),
        (3, Part::Directory),
    ] {
        unformatted(&rt, rt.alloc(), 200, &[lsn], lsn, part)?;
        unformatted(&rt, rt.alloc(), 200, &[249, 3, lsn, 100], lsn, part)?;
    }
    for (lsn, part) in [
        (0, Part::Identification),
        (1, Part::Map),
        (2, Part::Map),
        (3, Part::Descriptor),
        (4, Part::Directory),
    ] {
        unformatted(&rt, rt.alloc(), 2049, &[4, lsn], lsn, part)?;
    }
    Ok(())
}

// The arguments are asked before the sectors are.
#[test]
fn unlawful_arguments_come_before_a_bad_sector(rt: HostRuntime) -> Result<(), Fail> {
    let bytes = spoilt(&rt, rt.alloc(), false, &[0, 1, 2, 3])?;
    let mut tray = Tray::new(bytes.clone()?);
    for (total, allocation) in [(15, 8), (251, 8), (200, 0), (200, 256)] {
        let fault = format(&mut tray, total, b"Worn", allocation)
            .err()
            .ok_or("a volume was made")?;
        assert_eq!(rt; fault.number(), 20);
        assert_eq!(rt; fault.layer(), Layer::Volume);
    }
    assert!(rt; tray.into_bytes() == bytes);
    Ok(())
}

fn formatted(rt: &impl Abort, heap: Global, total: usize, bad: &[usize]) -> Result<(), Fail> {
    assert!(rt; total <= 65536);
    let name = b"Worn";
    let expected = NewVolume { total, name, bad };
    let before = spoilt(rt, heap, total > 250, bad)?;
    let mut tray = Tray::new(before.clone()?);
    let volume = format(&mut tray, total, name, 8)?;
    recorded(rt, &tray, &volume, &expected, 8)?;
    laid(
        rt,
        heap,
        &expected,
        0,
        before.as_slice(),
        tray.into_bytes().as_slice(),
    )
}

#[test]
fn a_bad_sector_elsewhere_is_taken_in_the_map(rt: HostRuntime) -> Result<(), Fail> {
    formatted(&rt, rt.alloc(), 200, &[])?;
    formatted(&rt, rt.alloc(), 200, &[4])?;
    formatted(&rt, rt.alloc(), 200, &[199, 7, 8, 100])?;
    formatted(
        &rt,
        rt.alloc(),
        16,
        &[4, 5, 6, 7, 8, 9, 10, 11, 12, 13, 14, 15],
    )?;
    formatted(&rt, rt.alloc(), 2049, &[5, 2047, 2048])
}

// A sector past the volume's end has its bit set, bad or not.
#[test]
fn a_bad_sector_past_the_end_changes_nothing(rt: HostRuntime) -> Result<(), Fail> {
    let mut worn = Tray::new(spoilt(&rt, rt.alloc(), false, &[200, 249])?);
    let mut new = Tray::new(spoilt(&rt, rt.alloc(), false, &[])?);
    let volume = format(&mut worn, 200, b"Worn", 8)?;
    assert_eq!(rt; clear_sectors(&worn, &volume)?, 196);
    let volume = format(&mut new, 200, b"Worn", 8)?;
    assert_eq!(rt; clear_sectors(&new, &volume)?, 196);
    let worn = in_order(&rt, rt.alloc(), worn.into_bytes().as_slice())?;
    let new = in_order(&rt, rt.alloc(), new.into_bytes().as_slice())?;
    assert!(rt; worn == new);
    Ok(())
}

#[test]
fn a_map_that_turns_bad_is_not_counted(rt: HostRuntime) -> Result<(), Fail> {
    for lsn in 1..3 {
        let mut tray = Tray::new(spoilt(&rt, rt.alloc(), true, &[])?);
        let volume = format(&mut tray, 2049, b"Worn", 8)?;
        let mut bytes = tray.into_bytes();
        spoil(&rt, bytes.as_mut_slice(), lsn)?;
        let fault = clear_sectors(&Tray::new(bytes), &volume)
            .err()
            .ok_or("the sectors were counted")?;
        is_bad(&rt, fault, lsn, Part::Map)?;
    }
    Ok(())
}

#[test]
fn a_window_of_a_tray_is_formatted(rt: HostRuntime) -> Result<(), Fail> {
    let heap = rt.alloc();
    // bad before the window, in it, and past it
    let before = spoilt(&rt, heap, false, &[6, 17, 57])?;
    let expected = NewVolume {
        total: 40,
        name: b"Part",
        bad: &[10],
    };
    let mut window = Window::new(Tray::new(before.clone()?), 7, 50);
    let volume = format(&mut window, 40, b"Part", 255)?;
    recorded(&rt, &window, &volume, &expected, 255)?;
    refused(&rt, heap, &mut window, 10, 256, Cause::Bad)?;
    refused(&rt, heap, &mut window, 50, 256, Cause::Range)?;
    let after = window.into_lower().into_bytes();
    laid(&rt, heap, &expected, 7, before.as_slice(), after.as_slice())
}

// A window's bad sector is told by the window's LSN.
#[test]
fn a_window_with_a_bad_sector_is_refused(rt: HostRuntime) -> Result<(), Fail> {
    let bytes = spoilt(&rt, rt.alloc(), false, &[9, 10])?;
    let mut window = Window::new(Tray::new(bytes.clone()?), 7, 40);
    let fault = format(&mut window, 40, b"Part", 255)
        .err()
        .ok_or("a volume was made")?;
    is_bad(&rt, fault, 2, Part::Descriptor)?;
    assert!(rt; window.into_lower().into_bytes() == bytes);
    Ok(())
}
