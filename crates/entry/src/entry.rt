// What has been declared.

// How many symbols, rows, clauses and bindings the records read so far have declared.
#[derive(Clone, Copy)]
pub struct Counts {
    pub symbols: u16,
    pub rows: u16,
    pub clauses: u16,
    pub bindings: u16,
}
