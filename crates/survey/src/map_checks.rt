ghost use Rattle.std.specs.Prelude.{◌≡◌, ℕ, ◌+◌, ◌*◌, ◌<◌, ◌≤◌, length};
ghost use Rattle.survey.specs.MapChecks.{SectorAnswer, RowAnswer, MapAnswer};

use super::finding::{Finding, Reading};
use super::sectors::load;
use devices::device::Device;
use layout::bitmap::{BITS, is_set, map_length};
use rules::rule::Rule;

// Asks of one sector that its bit is set where it is marked, and that it is good where it is marked or clear.
fn check_sector<D: Device>(device: &D, k: usize, mark: u8, set: bool) -> Result<(), Finding>
    requires { k < (D.Device.meaning device.now).count }
    ensures { SectorAnswer (D.Device.meaning device.now) k mark set result }
{
    if set && mark == 0 {
        return Ok(());
    }
    let true = (set || mark == 0) else {
        return Err(Finding::broken(Rule::H, k));
    };
    load(device, k, Reading::Sector)?;
    Ok(())
}

// Asks the same of the sectors whose bits a map sector has.
fn check_row<D: Device>(
    device: &D,
    marks: &[u8],
    row: &[u8],
    first: usize,
    n: usize,
) -> Result<(), Finding>
    requires wide { n ≤ 8 * length row.now }
    requires marked { first + n ≤ length marks.now }
    requires there { first + n ≤ (D.Device.meaning device.now).count }
    ensures { RowAnswer (D.Device.meaning device.now) marks.now row.now first n result }
{
    for (i, mark) in marks[first..first + n].iter().enumerate() {
        check_sector(device, first + i, *mark, is_set(row, i))?;
    }
    Ok(())
}

// Asks the same of every sector of a volume. Each map sector is read once, and each sector that must be good once.
pub fn check_map<D: Device>(device: &D, marks: &[u8], total: usize) -> Result<(), Finding>
    requires many { total ≤ 65536 }
    requires least { 16 ≤ total }
    requires marked { total ≤ length marks.now }
    requires there { total ≤ (D.Device.meaning device.now).count }
    ensures { MapAnswer (D.Device.meaning device.now) marks.now total result }
{
    for index in 0..map_length(total) {
        let row = load(device, 1 + index, Reading::Map)?;
        let first = index * BITS;
        check_row(device, marks, &row, first, BITS.min(total - first))?;
    }
    Ok(())
}
