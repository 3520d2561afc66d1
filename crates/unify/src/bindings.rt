// The table of bindings, four cells for each. A write outside it does nothing.
ghost use Rattle.std.specs.Prelude.{◌≡◌};
ghost use Rattle.unification.specs.Bindings.{push};

use following::values::write_cells;

// Binding `held` is written: of the variable v at index i, to t at index j.
pub fn push_binding(bindings: &mut [u16], held: u16, v: u16, i: u16, t: u16, j: u16)
    ensures { bindings.new ≡ push bindings.old held v i t j }
{
    write_cells(bindings, 4 * (held as usize), v, i);
    write_cells(bindings, 4 * (held as usize) + 2, t, j);
}
