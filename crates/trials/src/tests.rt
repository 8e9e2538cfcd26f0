use devices::device::{Cause, Device, DeviceFault};
use std::alloc::Global;
use std::fmt::Display;
use std::process::Abort;
use std::test::Fail;

mod bad_sectors;
mod flat_images;
mod formats;
mod inspections;
mod surveys;
mod trays;
mod windows;

// One of several cases passes. If it does not, the case is told.
fn passes(
    rt: &impl Abort,
    checked: Result<(), Fail>,
    case: impl Display + Drop,
) -> Result<(), Fail> {
    assert!(rt; checked.is_ok(), "{case}");
    checked
}

// A read and a write with a buffer of so many bytes are both refused, and the buffer stays as it was.
fn refused<D: Device>(
    rt: &impl Abort,
    heap: Global,
    device: &mut D,
    lsn: usize,
    len: usize,
    cause: Cause,
) -> Result<(), Fail> {
    let fault = DeviceFault { cause, lsn };
    let mut buf = vec![in heap; 0xEE; len]?;
    assert_eq!(rt; (*device).read(lsn, buf.as_mut_slice()), Err(fault));
    assert_eq!(rt; device.write(lsn, buf.as_slice()), Err(fault));
    assert!(rt; buf == vec![in heap; 0xEE; len]?);
    Ok(())
}
