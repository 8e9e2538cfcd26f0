ghost use Rattle.std.specs.Prelude.{◌≡◌, ℕ, ◌*◌, ◌+◌, ◌<◌, ◌≤◌, length, codes, MatchBool, ◌≢◌, slice_index};
ghost use Rattle.layout.specs.Descriptor.{size, segments, extent};
ghost use Rattle.layout.specs.Names.{name_of};
ghost use Rattle.survey.specs.Visiting.{MarkedName, DotAnswer, DotsAnswer};
ghost use Rattle.layout.specs.Directory.{entry, slot as slot_in};

use super::finding::Finding;
use super::slot_taking::named_in;
use super::slots::read_slot;
use devices::device::Device;
use layout::names::{HERE, UP};
use rules::rule::Rule;

// Whether a slot has this stored name, and names this descriptor.
pub fn is_dot(slot: &[u8; 32], name: &[u8], lsn: usize) -> bool
    requires stored { MarkedName name.now }
    requires short { length name.now < 28 }
    ensures { MatchBool result (slot_in slot.now ≡ entry (name_of name.now) lsn) (slot_in slot.now ≢ entry (name_of name.now) lsn) }
{
    slot.starts_with(name) && named_in(slot) == lsn
}

// Whether a slot is ".", and names this descriptor.
pub fn is_here(slot: &[u8; 32], lsn: usize) -> bool
    ensures { MatchBool result (slot_in slot.now ≡ entry (codes ".") lsn) (slot_in slot.now ≢ entry (codes ".") lsn) }
{
    is_dot(slot, &HERE, lsn)
}

// Whether a slot is "..", and names this descriptor.
pub fn is_up(slot: &[u8; 32], lsn: usize) -> bool
    ensures { MatchBool result (slot_in slot.now ≡ entry (codes "..") lsn) (slot_in slot.now ≢ entry (codes "..") lsn) }
{
    is_dot(slot, &UP, lsn)
}

// Asks that the slot k of the directory `lsn` has this stored name, and names this descriptor.
// The directory's descriptor and its LSN go side by side, here and in a scan: a type that ties them would have to hold the device as well, to say how.
fn check_dot<D: Device>(
    device: &D,
    descriptor: &[u8; 256],
    lsn: usize,
    k: usize,
    name: &[u8],
    named: usize,
) -> Result<(), Finding>
    requires stored { MarkedName name.now }
    requires short { length name.now < 28 }
    requires is { descriptor.now ≡ (D.Device.meaning device.now).sector lsn }
    requires held { k * 32 + 32 ≤ size descriptor.now }
    requires enough { size descriptor.now ≤ 256 * length (extent (segments descriptor.now)) }
    requires wide { (i : ℕ) → i < length (extent (segments descriptor.now)) → length ((D.Device.meaning device.now).sector (slice_index (extent (segments descriptor.now)) i)) ≡ 256 }
    ensures { DotAnswer (D.Device.meaning device.now) lsn k (name_of name.now) named result }
{
    let slot = read_slot(device, descriptor, k)?;
    let true = is_dot(&slot, name, named) else {
        return Err(Finding::broken(Rule::E, lsn));
    };
    Ok(())
}

// Asks that slots 0 and 1 of the directory `lsn` are "." and "..", naming itself and its parent.
pub fn check_dots<D: Device>(
    device: &D,
    descriptor: &[u8; 256],
    lsn: usize,
    parent: usize,
) -> Result<(), Finding>
    requires is { descriptor.now ≡ (D.Device.meaning device.now).sector lsn }
    requires held { 64 ≤ size descriptor.now }
    requires enough { size descriptor.now ≤ 256 * length (extent (segments descriptor.now)) }
    requires wide { (i : ℕ) → i < length (extent (segments descriptor.now)) → length ((D.Device.meaning device.now).sector (slice_index (extent (segments descriptor.now)) i)) ≡ 256 }
    ensures { DotsAnswer (D.Device.meaning device.now) lsn parent result }
{
    check_dot(device, descriptor, lsn, 0, &HERE, lsn)?;
    check_dot(device, descriptor, lsn, 1, &UP, parent)
}
