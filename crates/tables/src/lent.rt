// The four tables that a caller lends, as one value. `Lent` in specs/ says that they stay the ones lent.

// What the records declare: symbols, rows, clauses and bindings.
#[derive(Drop)]
pub struct LentTables<'a> {
    pub symbols: &'a mut [u16],
    pub rows: &'a mut [u16],
    pub clauses: &'a mut [u16],
    pub bindings: &'a mut [u16],
}
