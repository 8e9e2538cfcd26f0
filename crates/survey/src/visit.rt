ghost use Rattle.std.specs.Prelude.{◌≤◌, length};
ghost use Rattle.survey.specs.Lists.{Kept, Ready, counted};
ghost use Rattle.survey.specs.Visiting.{VisitAnswer};

use super::descriptor_checks::{check_descriptor, is_directory};
use super::dots::check_dots;
use super::finding::{Finding, Reading};
use super::marking::mark_segments;
use super::scan::scan_slots;
use super::sectors::load;
use super::subject::Subject;
use super::work_lists::WorkLists;
use devices::device::Device;
use rules::rule::Rule;

// Visits one descriptor: asks what the rules ask of it, marks its sectors, and what it names waits behind those that did.
pub fn visit<D: Device>(
    subject: &Subject<'_, D>,
    lsn: usize,
    parent: usize,
    lists: &mut WorkLists<'_>,
) -> Result<(), Finding>
    requires { Ready subject.now.bounds.high lists.old }
    ensures kept { Kept lists.old lists.new }
    ensures some { lists.new.count ≤ length lists.new.waiting.now }
    ensures visited { VisitAnswer (D.Device.meaning subject.now.device.now) lsn parent subject.now.bounds.low subject.now.bounds.high lists.old.count lists.old.marks.now lists.new.marks.now lists.old.waiting.now lists.new.waiting.now (counted lists.new.count result) }
{
    let descriptor = load(subject.device, lsn, Reading::Descriptor)?;
    check_descriptor(&descriptor, subject.bounds).map_err(|rule| Finding::broken(rule, lsn))?;
    // borrowed anew: of a field that is passed as it is, only the length is known afterwards
    let marks = &mut *lists.marks;
    mark_segments(marks, &descriptor).map_err(|sector| Finding::broken(Rule::G, sector))?;
    if !is_directory(&descriptor) {
        return Ok(());
    }
    check_dots(subject.device, &descriptor, lsn, parent)?;
    scan_slots(subject, &descriptor, lsn, lists)
}
