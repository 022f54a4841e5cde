use zoned::conditions::Bad;

// A trip has a zone fault: the command that passes the drive's checks there as the `count`-th from now faults, and sets the condition, or
// offline if it is a read. At count 0 there is none.
// The count stays a number, and no trip is no `Option`: whoever sets a trip may give 0, so an `Option` would have two ways to say none.
#[derive(Clone, Copy, PartialEq, Eq, Debug)]
pub struct Trip {
    pub count: u32,
    pub into: Bad,
}
