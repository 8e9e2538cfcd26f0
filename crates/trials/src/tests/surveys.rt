use super::passes;
use devices::flat::FlatImage;
use rules::rule::Rule;
use std::alloc::Global;
use std::process::Abort;
use std::test::Fail;
use survey::waiting::Waiting;
use volume::fault::VolumeFault;
use volume::format::format;
use volume::survey_volume::survey;

// The image of a new volume of 64 sectors: its map is LSN 1, its root LSN 2, the root's slots LSN 3.
fn new_image(rt: &impl Abort, heap: Global) -> Result<Vec<u8>, Fail> {
    let mut image = FlatImage::new(vec![in heap; 0x55; 64 * 256]?);
    let made = format(&mut image, 64, b"Ballots", 8)?;
    assert_eq!(rt; made.total(), 64);
    Ok(image.into_bytes())
}

// The new volume with one byte changed breaks one rule, at one sector.
fn broken(
    rt: &impl Abort,
    heap: Global,
    offset: usize,
    byte: u8,
    rule: Rule,
    sector: usize,
) -> Result<(), Fail> {
    let mut bytes = new_image(rt, heap)?;
    assert!(rt; offset < bytes.len());
    bytes[offset] = byte;
    let image = FlatImage::new(bytes);
    let mut marks = [0u8; 64];
    let mut waiting = [Waiting::UNUSED; 64];
    let Err(
        VolumeFault::Broken {
            rule: found,
            sector: at,
        },
    ) = survey(&image, 8, &mut marks, &mut waiting)
    else {
        return Err(Fail::new("the rule was not found to be broken"));
    };
    assert_eq!(rt; found, rule);
    assert_eq!(rt; at, sector);
    Ok(())
}

#[test]
fn a_new_volume_passes(rt: HostRuntime) -> Result<(), Fail> {
    let image = FlatImage::new(new_image(&rt, rt.alloc())?);
    let mut marks = [7u8; 70];
    let mut waiting = [Waiting::UNUSED; 64];
    let volume = survey(&image, 255, &mut marks, &mut waiting)?;
    assert_eq!(rt; volume.total(), 64);
    assert_eq!(rt; volume.root(), 2);
    assert_eq!(rt; volume.allocation(), 255);
    assert_eq!(rt; &marks[..4], [1; 4].as_slice());
    assert_eq!(rt; &marks[4..64], [0; 60].as_slice());
    assert_eq!(rt; &marks[64..], [7; 6].as_slice());
    Ok(())
}

// One changed byte: its offset, its new value, and the rule and the sector that it breaks.
const DAMAGE: [(usize, u8, Rule, usize); 20] = [
    (2, 15, Rule::A, 0),
    (2, 65, Rule::A, 0),
    (5, 9, Rule::A, 0),
    (7, 2, Rule::A, 0),
    (0x69, 1, Rule::A, 0),
    (10, 1, Rule::B, 0),
    (10, 64, Rule::B, 0),
    (512, 0x3F, Rule::F, 2),
    (512 + 12, 65, Rule::D, 2),
    (512 + 12, 32, Rule::D, 2),
    (512 + 11, 2, Rule::D, 2),
    (512 + 18, 1, Rule::B, 2),
    (512 + 18, 64, Rule::B, 2),
    (512 + 18, 2, Rule::G, 2),
    (512 + 23, 4, Rule::C, 2),
    (768, 0x41, Rule::E, 2),
    (768 + 31, 3, Rule::E, 2),
    (768 + 63, 3, Rule::E, 2),
    (256, 0xE0, Rule::H, 3),
    (256, 0x70, Rule::H, 0),
];

#[test]
fn a_damaged_volume_is_refused(rt: HostRuntime) -> Result<(), Fail> {
    for (offset, byte, rule, sector) in DAMAGE {
        let checked = broken(&rt, rt.alloc(), offset, byte, rule, sector);
        passes(
            &rt,
            checked,
            format_args!("byte {offset} changed to {byte}"),
        )?;
    }
    Ok(())
}

#[test]
fn unlawful_arguments(rt: HostRuntime) -> Result<(), Fail> {
    let image = FlatImage::new(new_image(&rt, rt.alloc())?);
    let mut marks = [0u8; 64];
    let mut waiting = [Waiting::UNUSED; 63];
    let fault = survey(&image, 256, &mut marks, &mut waiting)
        .err()
        .ok_or("a survey passed")?;
    assert_eq!(rt; fault.number(), 20);
    let fault = survey(&image, 8, &mut marks, &mut waiting)
        .err()
        .ok_or("a survey passed")?;
    assert_eq!(rt; fault.number(), 19);
    assert_eq!(rt; fault.place(), 0);
    Ok(())
}
