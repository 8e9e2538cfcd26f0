ghost use Rattle.std.specs.Prelude.{◌≡◌, ℕ, ◌+◌, ◌<◌, ◌≤◌, false, OnOk};
ghost use Rattle.devices.specs.Meaning.{Kept};
ghost use Rattle.layout.specs.Map.{map_sectors};
ghost use Rattle.layout.specs.Names.{VolumeName};
ghost use Rattle.rules.specs.Rules.{Sound};
ghost use Rattle.volume.specs.NewLayout.{NewLayout};
ghost use Rattle.volume.specs.NewVolume.{slots_of};
ghost use Rattle.volume.specs.Formatting.{GoodTo, GoodAnswer, MapLaid, Formatted, FormatDone};

use super::fault::{UNLAWFUL, VolumeFault};
use super::new_map::new_map_sector;
use super::new_sectors::{new_identification, new_root, new_slots};
use super::plan::Plan;
use super::sectors::load;
use super::volume_record::Volume;
use devices::device::{Device, Sector};
use layout::names::is_volume_name;

// Asks whether every sector that a new volume has written is good.
fn ask_good<D: Device>(device: &D, plan: Plan) -> Result<(), VolumeFault>
    requires { plan.total ≤ (D.Device.meaning device.now).count }
    ensures { GoodAnswer (D.Device.meaning device.now) plan.total result }
{
    for lsn in 0..=plan.slots_lsn() {
        load(device, lsn, plan.part_of(lsn))?;
    }
    Ok(())
}

// Replaces a sector that is known to be good.
fn replace<D: Device>(device: &mut D, lsn: usize, sector: &Sector)
    requires inside { lsn < (D.Device.meaning device.old).count }
    requires good { (D.Device.meaning device.old).bad lsn ≡ false }
    ensures kept { Kept (λ k. k ≡ lsn → ⊥) (D.Device.meaning device.old) (D.Device.meaning device.new) }
    ensures here { (D.Device.meaning device.new).sector lsn ≡ sector.now }
    ensures beside { D.Device.aside device.new ≡ D.Device.aside device.old }
{
    let Ok(()) = device.write(lsn, sector) else {
        unreachable()
    };
}

// Writes the map of a new volume.
fn lay_map<D: Device>(device: &mut D, plan: Plan)
    requires fits { plan.total ≤ (D.Device.meaning device.old).count }
    requires good { GoodTo (D.Device.meaning device.old) (slots_of plan.total) }
    ensures laid { MapLaid (D.Device.meaning device.old) (D.Device.meaning device.new) plan.total (map_sectors plan.total) }
    ensures beside { D.Device.aside device.new ≡ D.Device.aside device.old }
{
    for index in 0..plan.map_length() {
        let sector = new_map_sector(device, plan, index);
        replace(device, 1 + index, &sector);
    }
}

// Writes every sector of a new volume, the identification sector last.
fn lay_volume<D: Device>(device: &mut D, plan: Plan, name: &[u8])
    requires fits { plan.total ≤ (D.Device.meaning device.old).count }
    requires good { GoodTo (D.Device.meaning device.old) (slots_of plan.total) }
    requires named { VolumeName name.now }
    ensures laid { Formatted (D.Device.meaning device.old) (D.Device.meaning device.new) plan.total name.now }
    ensures beside { D.Device.aside device.new ≡ D.Device.aside device.old }
{
    lay_map(device, plan);
    replace(device, plan.root_lsn(), &new_root(plan));
    replace(device, plan.slots_lsn(), &new_slots(plan));
    replace(device, 0, &new_identification(plan, name));
}

// Makes a volume of the first `total` sectors of a device, with an empty root directory.
// Nothing is written before the last question is answered.
pub fn format<D: Device>(
    device: &mut D,
    total: usize,
    name: &[u8],
    allocation: usize,
) -> Result<Volume, VolumeFault>
    ensures done { FormatDone (D.Device.meaning device.old) (D.Device.meaning device.new) total name.now allocation result }
    ensures reads { OnOk result (NewLayout (D.Device.meaning device.old) (D.Device.meaning device.new).sector total name.now) }
    ensures sound { OnOk result (Sound (D.Device.meaning device.new)) }
    ensures beside { D.Device.aside device.new ≡ D.Device.aside device.old }
{
    let 16..=65536 = total else {
        return Err(UNLAWFUL);
    };
    let true = total <= (*device).count() else {
        return Err(UNLAWFUL);
    };
    let true = is_volume_name(name) else {
        return Err(UNLAWFUL);
    };
    let 1..=255 = allocation else {
        return Err(UNLAWFUL);
    };
    let plan = Plan { total };
    ask_good(device, plan)?;
    lay_volume(device, plan, name);
    Ok(Volume::unopened(total, plan.root_lsn(), allocation))
}
