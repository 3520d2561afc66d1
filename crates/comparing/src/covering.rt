// The answer. `Given` in specs/ says which ten numbers it stands for.
// There is nothing to compare: the file does not stand, or a clause is not an input clause of it.
#[derive(Clone, Copy, PartialEq, Eq)]
pub struct NothingToCompare;

// With a yes the literals of D chosen, one for each literal of C and zeros after them; none with a no.
pub type Covering = Result<Option<[u16; 7]>, NothingToCompare>;
