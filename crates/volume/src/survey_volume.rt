ghost use Rattle.std.specs.Prelude.{◌≡◌, ℕ, ◌<◌, ◌≤◌, length, IsSome, MatchOption};
ghost use Rattle.devices.specs.Meaning.{Whole};
ghost use Rattle.rules.specs.Rules.{sectors_of, RuleA};
ghost use Rattle.survey.specs.Walks.{Identified};
ghost use Rattle.volume.specs.Surveying.{RootAnswer, SurveyAnswer, Passes};

use super::fault::{Part, UNLAWFUL, VolumeFault, VolumeRefusal};
use super::sectors::load;
use super::volume_record::Volume;
use devices::device::{Device, Sector};
use layout::bitmap::{map_bytes, map_length};
use layout::numbers::number_at;
use rules::rule::Rule;
use survey::bounds::Bounds;
use survey::descriptor_checks::is_directory;
use survey::sector_checks::check_sectors;
use survey::subject::Subject;
use survey::waiting::Waiting;

// How many sectors the volume of an identification sector has, if the sector is lawful on its device.
fn identified_total<D: Device>(device: &D, sector: &Sector) -> Option<usize>
    requires { sector.now ≡ (D.Device.meaning device.now).sector 0 }
    ensures is { MatchOption result (RuleA (D.Device.meaning device.now) → ⊥) (λ total. RuleA (D.Device.meaning device.now) × (total ≡ sectors_of (D.Device.meaning device.now))) }
    ensures whole { IsSome result → Whole (D.Device.meaning device.now) }
{
    let total @ 16..=65536 = number_at(sector, 0x00, 3) else {
        return None;
    };
    let true = total <= device.count() else {
        return None;
    };
    let true = number_at(sector, 0x04, 2) == map_bytes(total) else {
        return None;
    };
    let 1 = number_at(sector, 0x06, 2) else {
        return None;
    };
    let (0 | 256) = number_at(sector, 0x68, 2) else {
        return None;
    };
    Some(total)
}

// Asks that the root's descriptor lies behind the map and within the volume, and that it is a directory's.
fn check_root<D: Device>(subject: &Subject<'_, D>, root: usize) -> Result<(), VolumeFault>
    requires { Identified (D.Device.meaning subject.now.device.now) root subject.now.bounds.low subject.now.bounds.high }
    ensures { RootAnswer (D.Device.meaning subject.now.device.now) result }
{
    let true = subject.bounds.contains(root) else {
        return Err(VolumeFault::Broken {
            rule: Rule::B,
            sector: 0,
        });
    };
    let descriptor = load(subject.device, root, Part::Descriptor)?;
    let true = is_directory(&descriptor) else {
        return Err(VolumeFault::Broken {
            rule: Rule::F,
            sector: root,
        });
    };
    Ok(())
}

// Makes the record of a volume that stands on a device, if the volume is sound: every rule is asked, of every descriptor that is reached and of every sector.
// The marks and the waiting list are the survey's work lists, lent by the caller: as many places each as the volume has sectors.
pub fn survey<D: Device>(
    device: &D,
    allocation: usize,
    marks: &mut [u8],
    waiting: &mut [Waiting],
) -> Result<Volume, VolumeFault>
    ensures answer { SurveyAnswer (D.Device.meaning device.now) allocation (length waiting.old) marks.old marks.new result }
    ensures passes { Passes (D.Device.meaning device.now) allocation (length marks.old) (length waiting.old) result }
{
    let 1..=255 = allocation else {
        return Err(UNLAWFUL);
    };
    let identification = load(device, 0, Part::Identification)?;
    let Some(total) = identified_total(device, &identification) else {
        return Err(VolumeFault::Broken {
            rule: Rule::A,
            sector: 0,
        });
    };
    let root = number_at(&identification, 0x08, 3);
    let subject = Subject {
        device,
        bounds: Bounds {
            low: map_length(total),
            high: total,
        },
    };
    let true = (total <= marks.len() && total <= waiting.len()) else {
        return Err(VolumeFault::Refused {
            refusal: VolumeRefusal::WorkLists,
            place: 0,
        });
    };
    check_root(&subject, root)?;
    check_sectors(&subject, root, marks, waiting)?;
    Ok(Volume::unopened(total, root, allocation))
}
