// The search for the earliest choice: it only reads the table of pairs that go together. `Searching` in specs/ of the crate matching has the contracts.
#![tactic(auto)]

ghost use Rattle.std.specs.Prelude.{◌≡◌, ◌+◌, ◌<◌, false, get_or};
ghost use Rattle.matching.specs.Searching.{pair_chosen, fits, searched, Searchable};

use matching::pairs::Together;

// A choice: in cell i the number that literal i of C, from 0, goes to.
pub type Choice = [u16; 8];

// The number chosen for literal i, 0 past the last.
pub fn chosen(choice: &Choice, i: u16) -> u16
    ensures { result ≡ get_or choice.now i 0 }
{
    choice.get(i as usize).copied().unwrap_or(0)
}

// The pair chosen for literal i.
fn pair_chosen(choice: &Choice, i: u16) -> usize
    requires { i < 8 }
    ensures { (result ≡ pair_chosen choice.now i) × (result < 65600) }
{
    8 * (i as usize) + (chosen(choice, i) as usize)
}

// A cell of the table, false outside.
fn together(table: &Together, at: usize) -> bool
    ensures { result ≡ get_or table.now at false }
{
    table.get(at).copied().unwrap_or(false)
}

// Whether the pair chosen for literal i is matched and goes with those of all literals before it.
fn fits_before(table: &Together, choice: &Choice, i: u16) -> bool
    requires { i < 8 }
    ensures { result ≡ fits table.now choice.now i }
{
    let here = pair_chosen(choice, i);
    for j in 0..i + 1 {
        let there = pair_chosen(choice, j);
        if !together(table, 64 * there + here) {
            return false;
        }
    }
    true
}

// So many literals from i on get the earliest numbers that fit.
pub fn search(table: &Together, choice: &mut Choice, rights: u16, left: u16, i: u16) -> bool
    requires { Searchable rights left i }
    ensures { (result, choice.new) ≡ searched table.now rights left i choice.old }
{
    if left == 0 {
        return true;
    }
    for n in 1..rights + 1 {
        choice[i as usize] = n;
        if fits_before(table, choice, i) && search(table, choice, rights, left - 1, i + 1) {
            return true;
        }
    }
    false
}
