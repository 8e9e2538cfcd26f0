use console::letters::StoredName;
use console::summary::Summary;
use layout::stored_slot::StoredSlot;
use volume::volume_record::Volume;

fn print_slot(rt: &HostRuntime, lsn: usize, slot: &StoredSlot) -> anyhow::Result<()> {
    let name = StoredName(&slot.name);
    let descriptor = slot.lsn;
    println!(rt; "LSN {lsn}: root directory: \"{name}\" with its descriptor in LSN {descriptor}")?;
    Ok(())
}

fn print_root(rt: &HostRuntime, lsn: usize, summary: &Summary) -> anyhow::Result<()> {
    let root = summary.root;
    let attribute = root.attribute;
    let links = root.link_count;
    let size = root.size;
    let start = root.segment.start;
    let len = root.segment.len;
    println!(rt;
        "LSN {lsn}: root descriptor: attribute {attribute}, link count {links}, size {size}, segment ({start}, {len})"
    )?;
    print_slot(rt, start, &summary.here)?;
    print_slot(rt, start, &summary.up)
}

// Prints what each sector of a new volume holds.
pub fn print_summary(
    rt: &HostRuntime,
    image: &str,
    len: usize,
    summary: &Summary,
) -> anyhow::Result<()> {
    let found = summary.identification;
    let total = found.total;
    let map_bytes = found.map_bytes;
    let cluster = found.cluster_size;
    let root = found.root;
    let attribute = found.attribute;
    let name = StoredName(&found.name);
    let clear = summary.clear;
    let last = root.saturating_sub(1);
    let range = if last == 1 {
        format!(in rt.alloc(); "LSN 1")?
    } else {
        format!(in rt.alloc(); "LSN 1 to {last}")?
    };
    println!(rt; "{image}: {len} bytes, {total} sectors")?;
    println!(rt;
        "LSN 0: identification: {total} sectors, {map_bytes} map bytes, cluster size {cluster}, root descriptor in LSN {root}, attribute {attribute}, name \"{name}\""
    )?;
    println!(rt; "{range}: allocation map: {clear} of {total} sectors clear")?;
    print_root(rt, root, summary)
}

// Prints the record of a volume.
pub fn print_record(rt: &HostRuntime, volume: &Volume) -> anyhow::Result<()> {
    let total = volume.total();
    let root = volume.root();
    let allocation = volume.allocation();
    let open = volume.open();
    let opened = volume.opened();
    println!(rt;
        "record: {total} sectors, root descriptor {root}, allocation size {allocation}, {open} paths open, {opened} ever opened"
    )?;
    Ok(())
}
