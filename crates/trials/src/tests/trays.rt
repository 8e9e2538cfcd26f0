use super::refused;
use crate::{fill_sector, header, sector_at, tray_bytes};
use devices::device::{Cause, Device};
use devices::inspection::inspect;
use devices::tray::Tray;
use std::alloc::Global;
use std::test::Fail;

// The places of a track of ten sectors whose interleave is 3.
const ROUND: [u8; 10] = [0, 3, 6, 9, 2, 5, 8, 1, 4, 7];

// Two such tracks, with some bad places: 28 bytes of header and states, and the sectors.
fn two_tracks(heap: Global, bad: &[usize]) -> Result<Vec<u8>, Fail> {
    Ok(tray_bytes(heap, header(2, 1, 10, 3), bad)?)
}

#[test]
fn sectors_lie_by_the_interleave(rt: HostRuntime) -> Result<(), Fail> {
    let geometry = inspect(two_tracks(rt.alloc(), &[])?.as_slice())?;
    for (k, place) in ROUND.into_iter().enumerate() {
        let place = usize::from(place);
        assert_eq!(rt; geometry.place(k), Some(place));
        assert_eq!(rt; geometry.place(10 + k), Some(10 + place));
    }
    assert_eq!(rt; geometry.place(14), Some(12));
    assert_eq!(rt; geometry.place(20), None);
    assert_eq!(rt; geometry.place(usize::MAX), None);
    Ok(())
}

#[test]
fn a_sector_is_read_from_its_place(rt: HostRuntime) -> Result<(), Fail> {
    let bytes = two_tracks(rt.alloc(), &[])?;
    let tray = Tray::new(bytes.clone()?);
    assert_eq!(rt; tray.count(), 20);
    for (k, place) in ROUND.into_iter().enumerate() {
        let place = usize::from(place);
        let mut sector = [0; 256];
        tray.read(k, &mut sector)?;
        assert!(rt; sector == sector_at(bytes.as_slice(), 28 + place * 256));
        tray.read(10 + k, &mut sector)?;
        assert!(rt; sector == sector_at(bytes.as_slice(), 2588 + place * 256));
    }
    assert!(rt; tray.into_bytes() == bytes);
    Ok(())
}

#[test]
fn a_write_changes_its_place_alone(rt: HostRuntime) -> Result<(), Fail> {
    for (k, place) in ROUND.into_iter().enumerate() {
        let place = usize::from(place);
        let mut bytes = two_tracks(rt.alloc(), &[])?;
        let mut tray = Tray::new(bytes.clone()?);
        tray.write(k, &[0xA5; 256])?;
        tray.write(10 + k, &[0x5A; 256])?;
        fill_sector(bytes.as_mut_slice(), 28 + place * 256, 0xA5);
        fill_sector(bytes.as_mut_slice(), 2588 + place * 256, 0x5A);
        assert!(rt; tray.into_bytes() == bytes, "sector {k} of each track");
    }
    Ok(())
}

#[test]
fn a_bad_sector_is_refused(rt: HostRuntime) -> Result<(), Fail> {
    let heap = rt.alloc();
    let bytes = two_tracks(heap, &[0, 12])?;
    let mut tray = Tray::new(bytes.clone()?);
    assert_eq!(rt; tray.count(), 20);
    for lsn in 0..20 {
        refused(&rt, heap, &mut tray, lsn, 255, Cause::Length)?;
        if lsn == 0 || lsn == 14 {
            refused(&rt, heap, &mut tray, lsn, 256, Cause::Bad)?;
        } else {
            tray.read(lsn, &mut [0; 256])?;
        }
    }
    for lsn in [20, 21, usize::MAX] {
        refused(&rt, heap, &mut tray, lsn, 256, Cause::Range)?;
        refused(&rt, heap, &mut tray, lsn, 257, Cause::Length)?;
    }
    assert!(rt; tray.into_bytes() == bytes);
    Ok(())
}
