ghost use Rattle.std.specs.Prelude.{◌≡◌, ◌≤◌, true, length};
ghost use Rattle.rules.specs.Nodes.{is_directory as directory_in};
ghost use Rattle.rules.specs.Rules.{SegmentsWithin, SizeRight};
ghost use Rattle.survey.specs.Lists.{Kept, Ready, counted};
ghost use Rattle.survey.specs.Scanning.{ScanAnswer};

use super::finding::Finding;
use super::slot_taking::take_slot;
use super::slots::read_slot;
use super::subject::Subject;
use super::work_lists::WorkLists;
use devices::device::Device;
use layout::numbers::number_at;

// Scans the slots of the directory `lsn`, from slot 2 on: what they name is marked and waits behind those that did.
pub fn scan_slots<D: Device>(
    subject: &Subject<'_, D>,
    descriptor: &[u8; 256],
    lsn: usize,
    lists: &mut WorkLists<'_>,
) -> Result<(), Finding>
    requires is { descriptor.now ≡ (D.Device.meaning subject.now.device.now).sector lsn }
    requires directory { directory_in descriptor.now ≡ true }
    requires size { SizeRight descriptor.now }
    requires within { SegmentsWithin descriptor.now subject.now.bounds.low subject.now.bounds.high }
    requires ready { Ready subject.now.bounds.high lists.old }
    ensures kept { Kept lists.old lists.new }
    ensures some { lists.new.count ≤ length lists.new.waiting.now }
    ensures scanned { ScanAnswer (D.Device.meaning subject.now.device.now) lsn subject.now.bounds.low subject.now.bounds.high lists.old.count lists.old.marks.now lists.new.marks.now lists.old.waiting.now lists.new.waiting.now (counted lists.new.count result) }
{
    let slots = number_at(descriptor, 9, 4) / 32;
    let base = lists.count;
    for k in 2..slots {
        let slot = read_slot(subject.device, descriptor, k)?;
        take_slot(&slot, lsn, subject.bounds, base, lists)?;
    }
    Ok(())
}
