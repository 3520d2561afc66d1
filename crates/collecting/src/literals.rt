// All literals of a clause, collected in one walk through its parents into a list, by their numbers, from 1.
ghost use Rattle.std.specs.Prelude.{◌≡◌, ◌≤◌, ◌<◌};
ghost use Rattle.derivation.specs.Stored.{origin_code};
ghost use Rattle.collecting.specs.Literals.{Deleted, RightsDeletable, RightsDeleted, Collectable, Collected};

use clauses::{index_cell, literals_cell, origin_code};
use following::nodes::{Origins, part_of};

// A literal as the list has it: the number that an input clause has for it (2 × row, plus 1 if positive), and its index.
#[derive(Clone, Copy)]
pub struct ListedLiteral {
    pub code: u16,
    pub index: u16,
}

// The list that the literals of a clause are collected in: a clause has at most 128 of them, and while it is put together there are four more
// at each step that it has at most, the right literals that the step names.
pub type LiteralList = [ListedLiteral; 16512];

// Of the literals after number `base`, as far as number `end`, the a-th is taken out, if there is one. Answers the number of the last one.
fn delete(list: &mut LiteralList, base: usize, end: usize, a: u16) -> usize
    requires base_le_end { base ≤ end }
    requires end_bound { end < 16512 }
    ensures { Deleted list.old list.new base end a result }
{
    if a == 0 {
        return end;
    }
    let n = base + (a as usize);
    if end < n {
        return end;
    }
    list.copy_within(n + 1..end + 1, n);
    end - 1
}

// The right literals that clause c's step names are taken out of those after number `base`, the last one first, so that the numbers of
// the others still count. Most steps name one. Answers the number of the last literal left.
fn delete_rights(
    origins: &Origins,
    list: &mut LiteralList,
    base: usize,
    end: usize,
    c: u16,
) -> usize
    requires { RightsDeletable origins.now base end c }
    ensures { RightsDeleted origins.now list.old list.new base end c result }
{
    if origin_code(origins, c) == 3 {
        return delete(list, base, end, part_of(origins, c, 3));
    }
    let third = delete(list, base, end, part_of(origins, c, 6));
    let second = delete(list, base, third, part_of(origins, c, 5));
    let first = delete(list, base, second, part_of(origins, c, 4));
    delete(list, base, first, part_of(origins, c, 3))
}

// The literals of an input clause, after number `base`: the numbers of its origin.
fn collect_input(
    origins: &Origins,
    clauses: &[u16],
    list: &mut LiteralList,
    base: usize,
    c: u16,
    offset: u16,
) -> usize
    requires collectable { Collectable origins.now clauses.now base c offset }
    requires c_value { origin_code origins.now c ≡ 1 }
    ensures { Collected origins.now clauses.now list.old list.new base c offset result }
{
    let count = literals_cell(clauses, c);
    for n in 0..count {
        list[base + (n as usize) + 1] = ListedLiteral {
            code: part_of(origins, c, n),
            index: offset + 1,
        };
    }
    base + (count as usize)
}

// The literals of clause c, after number `base`, with their indices raised by the offset: those of its parents, the right one's raised by
// the left maximum index, without the literals that the step names. Answers the number of the last one.
pub fn collect(
    origins: &Origins,
    clauses: &[u16],
    list: &mut LiteralList,
    base: usize,
    c: u16,
    offset: u16,
) -> usize
    requires { Collectable origins.now clauses.now base c offset }
    ensures { Collected origins.now clauses.now list.old list.new base c offset result }
{
    let code = origin_code(origins, c);
    if code == 1 {
        return collect_input(origins, clauses, list, base, c, offset);
    }
    let left = part_of(origins, c, 0);
    let second = part_of(origins, c, 2);
    let all = collect(origins, clauses, list, base, left, offset);
    if code == 2 {
        return delete(list, base, all, second);
    }
    let kept = delete(list, base, all, part_of(origins, c, 1));
    let above = offset + index_cell(clauses, left);
    let last = collect(origins, clauses, list, kept, second, above);
    delete_rights(origins, list, kept, last, c)
}
