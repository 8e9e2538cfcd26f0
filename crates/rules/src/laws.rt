ghost use Rattle.rules.specs.Rules.{BrokenUnsound};
ghost use Rattle.rules.specs.Walking.{WalkStarts, WalkTurns, WalkClashes, WalkEnds, WalkLists, WalkFits};

// What is broken at a sector is not sound: a finding and a pass exclude each other.
pub fn findings_exclude() -> bool
    ensures { BrokenUnsound }
{
    true
}

// The walk of a survey: the root waits at first, a turn visits what waits, a sector that is met twice is held twice, at the end every reached descriptor was visited, each once, and no more are met than the volume has sectors.
pub fn walk_stands() -> bool
    ensures starts { WalkStarts }
    ensures turns { WalkTurns }
    ensures clashes { WalkClashes }
    ensures ends { WalkEnds }
    ensures lists { WalkLists }
    ensures fits { WalkFits }
{
    true
}
