use super::refused;
use crate::{fill_sector, numbered, sector_at};
use devices::device::{Cause, Device};
use devices::flat::FlatImage;
use std::test::Fail;

#[test]
fn whole_sectors_are_counted(rt: HostRuntime) -> Result<(), Fail> {
    for (len, count) in [(0, 0), (255, 0), (256, 1), (511, 1), (512, 2)] {
        let image = FlatImage::new(numbered(rt.alloc(), len)?);
        assert_eq!(rt; image.count(), count, "{len} bytes");
    }
    Ok(())
}

#[test]
fn a_refusal_changes_nothing(rt: HostRuntime) -> Result<(), Fail> {
    let heap = rt.alloc();
    let mut image = FlatImage::new(numbered(heap, 529)?);
    for lsn in [0, 1, 2, 3, usize::MAX] {
        for len in [0, 255, 257] {
            refused(&rt, heap, &mut image, lsn, len, Cause::Length)?;
        }
    }
    for lsn in [2, 3, usize::MAX] {
        refused(&rt, heap, &mut image, lsn, 256, Cause::Range)?;
    }
    assert!(rt; image.into_bytes() == numbered(heap, 529)?);
    Ok(())
}

#[test]
fn a_sector_is_read_where_it_lies(rt: HostRuntime) -> Result<(), Fail> {
    let bytes = numbered(rt.alloc(), 900)?;
    let image = FlatImage::new(numbered(rt.alloc(), 900)?);
    for lsn in 0..3 {
        let mut sector = [0; 256];
        image.read(lsn, &mut sector)?;
        assert!(rt; sector == sector_at(bytes.as_slice(), lsn * 256));
    }
    assert!(rt; image.into_bytes() == bytes);
    Ok(())
}

#[test]
fn a_write_changes_its_sector_alone(rt: HostRuntime) -> Result<(), Fail> {
    for lsn in 0..3 {
        let mut bytes = numbered(rt.alloc(), 900)?;
        let mut image = FlatImage::new(numbered(rt.alloc(), 900)?);
        image.write(lsn, &[0xA5; 256])?;
        fill_sector(bytes.as_mut_slice(), lsn * 256, 0xA5);
        assert!(rt; image.into_bytes() == bytes, "LSN {lsn}");
    }
    Ok(())
}
