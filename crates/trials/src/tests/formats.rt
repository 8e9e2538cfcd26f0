use super::passes;
use crate::new_volume::{NewVolume, map_sectors};
use devices::device::Device;
use devices::flat::FlatImage;
use std::alloc::Global;
use std::process::Abort;
use std::test::Fail;
use volume::count::clear_sectors;
use volume::fault::Layer;
use volume::format::format;
use volume::volume_record::Volume;

// An image of so many sectors, each byte 0x55.
fn blank(heap: Global, count: u32) -> Result<Vec<u8>, Fail> {
    Ok(vec![in heap; 0x55; count as usize * 256]?)
}

// What the record of a new volume holds, and what its map says to be clear.
pub fn recorded<D: Device>(
    rt: &impl Abort,
    device: &D,
    volume: &Volume,
    expected: &NewVolume,
    allocation: usize,
) -> Result<(), Fail> {
    let map = map_sectors(expected.total);
    assert_eq!(rt; volume.total(), expected.total);
    assert_eq!(rt; volume.root(), map + 1);
    assert_eq!(rt; volume.allocation(), allocation);
    assert_eq!(rt; volume.open(), 0);
    assert_eq!(rt; volume.opened(), 0);
    let taken = (map + 3).saturating_add(expected.bad.len());
    assert_eq!(rt;
        clear_sectors(device, volume)?,
        expected.total.saturating_sub(taken)
    );
    Ok(())
}

// Format makes a volume of an image, and leaves each byte as it should be.
fn lawful(
    rt: &impl Abort,
    heap: Global,
    count: u32,
    total: usize,
    name: &[u8],
    allocation: usize,
) -> Result<(), Fail> {
    assert!(rt; total <= 65536);
    let expected = NewVolume {
        total,
        name,
        bad: &[],
    };
    let before = blank(heap, count)?;
    let mut image = FlatImage::new(before.clone()?);
    let volume = format(&mut image, total, name, allocation)?;
    recorded(rt, &image, &volume, &expected, allocation)?;
    let after = image.into_bytes();
    assert_eq!(rt;
        expected.first_difference(before.as_slice(), after.as_slice()),
        None
    );
    Ok(())
}

// Format refuses its arguments, and leaves each byte of the image as it was.
fn unlawful(
    rt: &impl Abort,
    heap: Global,
    count: u32,
    total: usize,
    name: &[u8],
    allocation: usize,
) -> Result<(), Fail> {
    let mut image = FlatImage::new(blank(heap, count)?);
    let fault = format(&mut image, total, name, allocation)
        .err()
        .ok_or("a volume was made")?;
    assert_eq!(rt; fault.number(), 20);
    assert_eq!(rt; fault.place(), 0);
    assert_eq!(rt; fault.layer(), Layer::Volume);
    assert!(rt; image.into_bytes() == blank(heap, count)?);
    Ok(())
}

// A volume's sectors, and those of the image that it is made on.
const LAWFUL: [(usize, u32); 12] = [
    (16, 16),
    (16, 21),
    (17, 17),
    (200, 200),
    (200, 211),
    (2047, 2048),
    (2048, 2048),
    (2048, 2051),
    (2049, 2049),
    (2049, 2060),
    (4097, 4100),
    (65536, 65540),
];

#[test]
fn every_byte_of_a_new_volume_is_right(rt: HostRuntime) -> Result<(), Fail> {
    for (total, count) in LAWFUL {
        let checked = lawful(&rt, rt.alloc(), count, total, b"Backup_1", 8);
        passes(&rt, checked, format_args!("{total} of {count} sectors"))?;
    }
    Ok(())
}

#[test]
fn a_total_out_of_bounds_is_refused(rt: HostRuntime) -> Result<(), Fail> {
    for (total, count) in [
        (0, 16),
        (15, 16),
        (16, 0),
        (16, 15),
        (17, 16),
        (2049, 2048),
        (65536, 65535),
        (65537, 65537),
        (65537, 65540),
        (usize::MAX, 16),
    ] {
        let checked = unlawful(&rt, rt.alloc(), count, total, b"Backup_1", 8);
        passes(&rt, checked, format_args!("{total} of {count} sectors"))?;
    }
    Ok(())
}

#[test]
fn a_name_has_1_to_32_bytes(rt: HostRuntime) -> Result<(), Fail> {
    let heap = rt.alloc();
    unlawful(&rt, heap, 16, 16, b"", 8)?;
    for byte in *b".Z" {
        for len in 1..=32 {
            lawful(&rt, heap, 16, 16, vec![in heap; byte; len]?.as_slice(), 8)?;
        }
        for len in [33, 34, 256, 288] {
            unlawful(&rt, heap, 16, 16, vec![in heap; byte; len]?.as_slice(), 8)?;
        }
    }
    Ok(())
}

const NAMING: &[u8; 65] = b"ABCDEFGHIJKLMNOPQRSTUVWXYZabcdefghijklmnopqrstuvwxyz0123456789_$.";

#[test]
fn each_byte_of_a_name_is_asked(rt: HostRuntime) -> Result<(), Fail> {
    let heap = rt.alloc();
    for byte in 0..=255 {
        for name in [[byte, b'b', b'c'], [b'a', byte, b'c'], [b'a', b'b', byte]] {
            if NAMING.contains(&byte) {
                lawful(&rt, heap, 16, 16, &name, 8)?;
            } else {
                unlawful(&rt, heap, 16, 16, &name, 8)?;
            }
        }
    }
    Ok(())
}

#[test]
fn an_allocation_is_1_to_255(rt: HostRuntime) -> Result<(), Fail> {
    for allocation in [1, 2, 128, 254, 255] {
        lawful(&rt, rt.alloc(), 16, 16, b"A", allocation)?;
    }
    for allocation in [0, 256, 257, 65537, usize::MAX] {
        unlawful(&rt, rt.alloc(), 16, 16, b"A", allocation)?;
    }
    Ok(())
}

// These bytes stand at an offset.
fn shown(rt: &impl Abort, bytes: &[u8], at: usize, part: &[u8]) {
    assert!(rt; at <= bytes.len() && part.len() <= bytes.len() - at);
    assert_eq!(rt; &bytes[at..at + part.len()], part, "offset {at}");
}

// A volume of 200 sectors, whose map is one sector.
#[test]
fn a_small_volume_has_its_known_bytes(rt: HostRuntime) -> Result<(), Fail> {
    let mut image = FlatImage::new(blank(rt.alloc(), 200)?);
    let volume = format(&mut image, 200, b"Ab", 8)?;
    assert_eq!(rt; volume.root(), 2);
    assert_eq!(rt; clear_sectors(&image, &volume)?, 196);
    let bytes = image.into_bytes();
    assert_eq!(rt; bytes.len(), 51200);
    shown(
        &rt,
        bytes.as_slice(),
        0,
        &[0, 0, 200, 0, 0, 25, 0, 1, 0, 0, 2, 0, 0, 0xBF],
    );
    shown(&rt, bytes.as_slice(), 30, &[0, 0x41, 0xE2, 0]);
    // the map: LSN 0 to 3, and no other of the 200
    shown(&rt, bytes.as_slice(), 256, &[0xF0, 0]);
    shown(&rt, bytes.as_slice(), 280, &[0, 0xFF]);
    shown(
        &rt,
        bytes.as_slice(),
        520,
        &[1, 0, 0, 0, 64, 0, 0, 0, 0, 0, 3, 0, 1],
    );
    shown(&rt, bytes.as_slice(), 796, &[0, 0, 0, 2, 0x2E, 0xAE]);
    shown(&rt, bytes.as_slice(), 1023, &[0, 0x55]);
    Ok(())
}

// A volume of 2,049 sectors, whose map is two sectors: one bit is in the second.
#[test]
fn a_larger_volume_has_its_known_bytes(rt: HostRuntime) -> Result<(), Fail> {
    let mut image = FlatImage::new(blank(rt.alloc(), 2049)?);
    let volume = format(&mut image, 2049, b"Ab", 8)?;
    assert_eq!(rt; volume.root(), 3);
    assert_eq!(rt; clear_sectors(&image, &volume)?, 2044);
    let bytes = image.into_bytes();
    assert_eq!(rt; bytes.len(), 524544);
    shown(&rt, bytes.as_slice(), 0, &[0, 8, 1, 0, 1, 1, 0, 1, 0, 0, 3]);
    shown(&rt, bytes.as_slice(), 256, &[0xF8, 0]);
    shown(&rt, bytes.as_slice(), 511, &[0, 0x7F, 0xFF]);
    shown(&rt, bytes.as_slice(), 767, &[0xFF, 0xBF]);
    Ok(())
}

#[test]
fn a_lent_image_is_formatted(rt: HostRuntime) -> Result<(), Fail> {
    let expected = NewVolume {
        total: 16,
        name: b"Lent",
        bad: &[],
    };
    let before = blank(rt.alloc(), 20)?;
    let mut image = FlatImage::new(before.clone()?);
    let mut lent = &mut image;
    let volume = format(&mut lent, 16, b"Lent", 1)?;
    recorded(&rt, &lent, &volume, &expected, 1)?;
    let after = image.into_bytes();
    assert_eq!(rt;
        expected.first_difference(before.as_slice(), after.as_slice()),
        None
    );
    Ok(())
}
