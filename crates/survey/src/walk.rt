ghost use Rattle.std.specs.Prelude.{◌<◌, ◌≤◌, length};
ghost use Rattle.rules.specs.Rules.{root_at, Inside};
ghost use Rattle.survey.specs.Walks.{Identified, Prepared, WalkAnswer};

use super::bounds::Bounds;
use super::finding::Finding;
use super::subject::Subject;
use super::visit::visit;
use super::waiting::Waiting;
use super::work_lists::WorkLists;
use devices::device::Device;

// Marks the system's sectors and the root's descriptor, and no other sector of the volume.
fn prepare(marks: &mut [u8], bounds: Bounds, root: usize)
    requires long { bounds.high ≤ length marks.old }
    requires behind { bounds.low < root }
    ensures { Prepared bounds.low bounds.high root marks.old marks.new }
{
    for (k, mark) in marks[..bounds.high].iter_mut().enumerate() {
        *mark = u8::from(k <= bounds.low || k == root);
    }
}

// Walks from the root to every descriptor that is reached, and visits each once.
pub fn walk<D: Device>(
    subject: &Subject<'_, D>,
    root: usize,
    marks: &mut [u8],
    waiting: &mut [Waiting],
) -> Result<(), Finding>
    requires identified { Identified (D.Device.meaning subject.now.device.now) root subject.now.bounds.low subject.now.bounds.high }
    requires inside { Inside (D.Device.meaning subject.now.device.now) (root_at (D.Device.meaning subject.now.device.now)) }
    requires room { subject.now.bounds.high ≤ length waiting.old }
    requires marked { subject.now.bounds.high ≤ length marks.old }
    ensures { WalkAnswer (D.Device.meaning subject.now.device.now) marks.old marks.new result }
{
    prepare(marks, subject.bounds, root);
    let mut lists = WorkLists::new(marks, waiting);
    lists.push(Waiting {
        lsn: root,
        parent: root,
        name: [0; 28],
    });
    // each turn visits one more sector, and so no more turns are needed than there are sectors
    for turn in 0..subject.bounds.high {
        let Some(next) = lists.pop() else {
            return Ok(());
        };
        visit(subject, next.lsn, next.parent, &mut lists)?;
    }
    Ok(())
}
