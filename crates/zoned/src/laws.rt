ghost use Rattle.zoned.specs.Laws.{LawsKept, MarkKept, BlocksKept, ZonesKept, BadKept};

// The laws of runs of commands. Each function here does nothing: its contract is the law, of the rules by which every device is proved.

// Every list of commands keeps the reporter laws.
pub fn laws_are_kept()
    ensures { LawsKept }
{}

// The misuse mark never falls, and rises exactly at the refusals 21 to 25.
pub fn mark_is_kept()
    ensures { MarkKept }
{}

// A block changes only by an accepted write to it, and then holds what was written last.
pub fn blocks_are_kept()
    ensures { BlocksKept }
{}

// A zone's condition and pointer change only by a command to that zone.
pub fn zones_are_kept()
    ensures { ZonesKept }
{}

// A bad zone stays bad: a read's fault may take it from read-only to offline, and nothing else changes it.
pub fn bad_zones_are_kept()
    ensures { BadKept }
{}
