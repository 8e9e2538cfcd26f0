ghost use Rattle.std.specs.Prelude.{◌≤◌, length};
ghost use Rattle.rules.specs.Rules.{root_at, Inside};
ghost use Rattle.survey.specs.Walks.{Identified, CheckAnswer};

use super::finding::Finding;
use super::map_checks::check_map;
use super::subject::Subject;
use super::waiting::Waiting;
use super::walk::walk;
use devices::device::Device;

// Walks to every descriptor that is reached, and then asks the map and the device about every sector.
pub fn check_sectors<D: Device>(
    subject: &Subject<'_, D>,
    root: usize,
    marks: &mut [u8],
    waiting: &mut [Waiting],
) -> Result<(), Finding>
    requires identified { Identified (D.Device.meaning subject.now.device.now) root subject.now.bounds.low subject.now.bounds.high }
    requires inside { Inside (D.Device.meaning subject.now.device.now) (root_at (D.Device.meaning subject.now.device.now)) }
    requires least { 16 ≤ subject.now.bounds.high }
    requires many { subject.now.bounds.high ≤ 65536 }
    requires room { subject.now.bounds.high ≤ length waiting.old }
    requires marked { subject.now.bounds.high ≤ length marks.old }
    ensures { CheckAnswer (D.Device.meaning subject.now.device.now) marks.old marks.new result }
{
    walk(subject, root, marks, waiting)?;
    check_map(subject.device, marks, subject.bounds.high)
}
