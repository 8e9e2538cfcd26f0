ghost use Rattle.table.specs.Laws.{TableSound, SoundTable, OneTable, RootAlone, SameKeeps, ChangeKeeps, AddKeeps, RemoveKeeps};

// The table of a volume: where one stands every rule of a sound volume holds, and where every rule holds one stands, and no other. Where the root names nothing, it is the only entry.
pub fn table_stands() -> bool
    ensures sound { TableSound }
    ensures found { SoundTable }
    ensures one { OneTable }
    ensures alone { RootAlone }
{
    true
}

// What a call may do to a volume: nothing, or an entry is changed in place, a leaf is added to a directory, a leaf is removed from one. Each leaves the new table standing, so that every rule holds and the map is exact.
pub fn updates_keep() -> bool
    ensures same { SameKeeps }
    ensures change { ChangeKeeps }
    ensures add { AddKeeps }
    ensures remove { RemoveKeeps }
{
    true
}
