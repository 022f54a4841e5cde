ghost use Rattle.drives.specs.Trips.{NewIsFaultless, TripsCount};

// What trips do, and that nothing else faults. The function does nothing: its contract is the law.
pub fn trips_alone_fault()
    ensures counts { TripsCount }
    ensures faultless { NewIsFaultless }
{}
