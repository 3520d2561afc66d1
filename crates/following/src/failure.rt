// Why unification fails, which the occurrence test says too.
ghost use Rattle.std.specs.Prelude.{◌≡◌};
ghost use Rattle.unification.specs.Unification.{failure_number};
ghost use Rattle.following.specs.Walks.{failure_of};

// Two symbols differ; a variable occurs in what it would be bound to; the work is spent; or there is no room for a binding.
#[derive(Clone, Copy, PartialEq, Eq)]
pub enum Failure {
    SymbolsDiffer,
    VariableOccurs,
    WorkSpent,
    NoRoom,
}

impl Failure {
    // Its number in document 01's table.
    pub fn number(self) -> u8
        ensures { result ≡ failure_number (failure_of self) }
    {
        match self {
            Failure::SymbolsDiffer => 10,
            Failure::VariableOccurs => 11,
            Failure::WorkSpent => 12,
            Failure::NoRoom => 13,
        }
    }
}
