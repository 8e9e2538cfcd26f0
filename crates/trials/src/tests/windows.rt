use super::refused;
use crate::{fill_sector, header, numbered, sector_at, tray_bytes};
use devices::device::{Cause, Device};
use devices::flat::FlatImage;
use devices::tray::Tray;
use devices::window::Window;
use std::alloc::Global;
use std::test::Fail;

// How many bytes the image below has: five sectors and some bytes more.
const LEN: usize = 1300;

fn five_sectors(heap: Global) -> Result<FlatImage, Fail> {
    Ok(FlatImage::new(numbered(heap, LEN)?))
}

// A window on an image of five sectors: its first sector, how many it asks for, and how many it has.
const EXTENTS: [(usize, usize, usize); 14] = [
    (0, 0, 0),
    (0, 5, 5),
    (0, 6, 5),
    (0, usize::MAX, 5),
    (1, 2, 2),
    (1, 4, 4),
    (1, usize::MAX, 4),
    (4, 1, 1),
    (4, 2, 1),
    (5, 0, 0),
    (5, 1, 0),
    (6, usize::MAX, 0),
    (usize::MAX, 1, 0),
    (usize::MAX, usize::MAX, 0),
];

#[test]
fn a_window_ends_where_either_ends(rt: HostRuntime) -> Result<(), Fail> {
    let heap = rt.alloc();
    for (start, count, extent) in EXTENTS {
        let mut window = Window::new(five_sectors(heap)?, start, count);
        assert_eq!(rt; window.count(), extent);
        for lsn in 0..extent {
            window.read(lsn, &mut [0; 256])?;
            refused(&rt, heap, &mut window, lsn, 255, Cause::Length)?;
        }
        for lsn in [extent, extent.saturating_add(1), usize::MAX] {
            refused(&rt, heap, &mut window, lsn, 256, Cause::Range)?;
            refused(&rt, heap, &mut window, lsn, 257, Cause::Length)?;
        }
        assert!(rt; window.into_lower().into_bytes() == numbered(heap, LEN)?);
    }
    Ok(())
}

// Reads a sector, writes another in its place, and says what was read.
fn exchange<D: Device>(device: &mut D, lsn: usize, byte: u8) -> Result<[u8; 256], Fail> {
    let mut sector = [0; 256];
    (*device).read(lsn, &mut sector)?;
    device.write(lsn, &[byte; 256])?;
    Ok(sector)
}

#[test]
fn a_write_stays_in_the_window(rt: HostRuntime) -> Result<(), Fail> {
    for lsn in 0..3 {
        let at = 256 + lsn * 256;
        let mut bytes = numbered(rt.alloc(), LEN)?;
        let mut window = Window::new(five_sectors(rt.alloc())?, 1, 3);
        assert!(rt; exchange(&mut window, lsn, 0xA5)? == sector_at(bytes.as_slice(), at));
        fill_sector(bytes.as_mut_slice(), at, 0xA5);
        assert!(rt; window.into_lower().into_bytes() == bytes);
    }
    Ok(())
}

#[test]
fn a_window_on_a_window_counts_from_its_own_start(rt: HostRuntime) -> Result<(), Fail> {
    let heap = rt.alloc();
    let mut bytes = numbered(heap, LEN)?;
    let outer = Window::new(five_sectors(heap)?, 1, 3);
    let mut inner = Window::new(outer, 1, 9);
    assert_eq!(rt; inner.count(), 2);
    refused(&rt, heap, &mut inner, 2, 256, Cause::Range)?;
    assert!(rt; exchange(&mut inner, 0, 0xA5)? == sector_at(bytes.as_slice(), 512));
    assert!(rt; exchange(&mut inner, 1, 0x5A)? == sector_at(bytes.as_slice(), 768));
    fill_sector(bytes.as_mut_slice(), 512, 0xA5);
    fill_sector(bytes.as_mut_slice(), 768, 0x5A);
    assert!(rt; inner.into_lower().into_lower().into_bytes() == bytes);
    Ok(())
}

#[test]
fn a_window_on_a_tray_tells_of_its_own_sectors(rt: HostRuntime) -> Result<(), Fail> {
    let heap = rt.alloc();
    // LSN 14 lies at place 12, and LSN 13 at place 19
    let mut bytes = tray_bytes(heap, header(2, 1, 10, 3), &[12])?;
    let mut window = Window::new(Tray::new(bytes.clone()?), 13, 9);
    assert_eq!(rt; window.count(), 7);
    refused(&rt, heap, &mut window, 1, 256, Cause::Bad)?;
    refused(&rt, heap, &mut window, 1, 0, Cause::Length)?;
    refused(&rt, heap, &mut window, 7, 256, Cause::Range)?;
    assert!(rt; exchange(&mut window, 0, 0xA5)? == sector_at(bytes.as_slice(), 4892));
    fill_sector(bytes.as_mut_slice(), 4892, 0xA5);
    assert!(rt; window.into_lower().into_bytes() == bytes);
    Ok(())
}

#[test]
fn a_window_on_a_lent_image_leaves_it_with_the_lender(rt: HostRuntime) -> Result<(), Fail> {
    let heap = rt.alloc();
    let mut bytes = numbered(heap, LEN)?;
    let mut image = five_sectors(heap)?;
    let mut window = Window::new(&mut image, 3, 9);
    assert_eq!(rt; window.count(), 2);
    refused(&rt, heap, &mut window, 2, 256, Cause::Range)?;
    assert!(rt; exchange(&mut window, 1, 0xA5)? == sector_at(bytes.as_slice(), 1024));
    let mut lent = window.into_lower();
    assert_eq!(rt; lent.count(), 5);
    refused(&rt, heap, &mut lent, 5, 256, Cause::Range)?;
    assert!(rt; exchange(&mut lent, 0, 0x5A)? == sector_at(bytes.as_slice(), 0));
    fill_sector(bytes.as_mut_slice(), 1024, 0xA5);
    fill_sector(bytes.as_mut_slice(), 0, 0x5A);
    assert!(rt; image.into_bytes() == bytes);
    Ok(())
}
