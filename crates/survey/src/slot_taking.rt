ghost use Rattle.std.specs.Prelude.{◌≡◌, ℕ, ◌<◌, ◌≤◌, length, slice_index, OnErr};
ghost use Rattle.layout.specs.Directory.{stored_slot as slot_in};
ghost use Rattle.survey.specs.Lists.{Kept, counted};
ghost use Rattle.survey.specs.Taking.{SlotTaken, names as named};

use super::bounds::Bounds;
use super::finding::Finding;
use super::known_names::is_known;
use super::slot_checks::{is_slot_right, tidy_name};
use super::waiting::Waiting;
use super::work_lists::WorkLists;
use layout::numbers::number_at;
use rules::rule::Rule;

// The descriptor that a slot names.
pub fn named_in(slot: &[u8; 32]) -> usize
    ensures { result ≡ named slot.now }
{
    number_at(slot, 29, 3)
}

// Takes one slot of the directory `lsn`: an empty one asks nothing, and what a used one names is marked and waits behind the first `base`.
pub fn take_slot(
    slot: &[u8; 32],
    lsn: usize,
    bounds: Bounds,
    base: usize,
    lists: &mut WorkLists<'_>,
) -> Result<(), Finding>
    requires marked { bounds.high ≤ length lists.old.marks.now }
    requires some { lists.old.count ≤ length lists.old.waiting.now }
    requires room { (c : ℕ) → c < bounds.high → slice_index lists.old.marks.now c ≡ 0 → lists.old.count < length lists.old.waiting.now }
    ensures kept { Kept lists.old lists.new }
    ensures refused { OnErr result (lists.new.count ≡ lists.old.count) }
    ensures taken { SlotTaken slot.now lsn bounds.low bounds.high base lists.old.count lists.old.marks.now lists.new.marks.now lists.old.waiting.now lists.new.waiting.now (counted lists.new.count result) }
{
    if slot[0] == 0 {
        return Ok(());
    }
    let true = is_slot_right(slot) else {
        return Err(Finding::broken(Rule::E, lsn));
    };
    let name = tidy_name(&slot[0..28]);
    // borrowed anew: of a field that is passed as it is, only the length is known afterwards
    let waiting = &mut *lists.waiting;
    let false = is_known(waiting, base, lists.count, &name) else {
        return Err(Finding::broken(Rule::E, lsn));
    };
    let child = named_in(slot);
    let true = bounds.contains(child) else {
        return Err(Finding::broken(Rule::B, lsn));
    };
    let 0 = lists.marks[child] else {
        return Err(Finding::broken(Rule::G, child));
    };
    lists.mark(child);
    lists.push(Waiting {
        lsn: child,
        parent: lsn,
        name,
    });
    Ok(())
}
