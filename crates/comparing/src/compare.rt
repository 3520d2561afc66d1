// Two clauses compared, after a check: whether they are input clauses of a file that stands, and then their literals.
ghost use Rattle.std.specs.Prelude.{◌≡◌, ◌≤◌};
ghost use Rattle.coverings.specs.Choosing.{numbers_from, comparison_numbers, comparison_from, comparison};
ghost use Rattle.comparing.specs.Comparing.{is_input, AfterCheck, Compared};
ghost use Rattle.comparing.specs.Given.{choice_given};

use super::covering::{Covering, NothingToCompare};
use agreeing::fill_table;
use answer::{Answer, stands};
use choosing::{Choice, search};
use clauses::{literals_cell, origin_code};
use following::nodes::{Nodes, Origins};
use images::images::Notes;
use matching::pairs::{Found, Together, match_pairs};

// The seven numbers of a choice: its last cell is never one of them, since C has at most seven literals.
fn chosen_numbers(choice: &Choice) -> [u16; 7]
    ensures { result ≡ numbers_from choice.now 0 7 }
{
    [
        choice[0], choice[1], choice[2], choice[3], choice[4], choice[5], choice[6],
    ]
}

// The literals of c against those of d, so many on the left and on the right, in tables that are lent: those chosen, if c covers d.
fn choose_in(
    nodes: &Nodes,
    origins: &Origins,
    found: &mut Found,
    notes: &mut Notes,
    table: &mut Together,
    choice: &mut Choice,
    c: u16,
    d: u16,
    lefts: u16,
    rights: u16,
) -> Option<[u16; 7]>
    requires { (lefts ≤ 7) × (rights ≤ 7) }
    ensures { choice_given result ≡ comparison_numbers (comparison_from nodes.now origins.now c d lefts rights found.old notes.old table.old choice.old) }
{
    match_pairs(nodes, origins, found, notes, c, d, lefts, rights);
    fill_table(found, notes, table);
    if search(table, choice, rights, lefts, 0) {
        Some(chosen_numbers(choice))
    } else {
        None
    }
}

// The same with tables of its own.
#[tactic(auto, unfolding(coverings::specs::Choosing::comparison))]
fn choose(
    nodes: &Nodes,
    origins: &Origins,
    c: u16,
    d: u16,
    lefts: u16,
    rights: u16,
) -> Option<[u16; 7]>
    requires { (lefts ≤ 7) × (rights ≤ 7) }
    ensures { choice_given result ≡ comparison_numbers (comparison nodes.now origins.now c d lefts rights) }
{
    let mut found = [false; 64];
    let mut notes = [0u32; 4096];
    let mut table = [false; 4096];
    let mut choice = [0u16; 8];
    choose_in(
        nodes,
        origins,
        &mut found,
        &mut notes,
        &mut table,
        &mut choice,
        c,
        d,
        lefts,
        rights,
    )
}

// Whether clause c is one of so many, and an input clause.
fn is_input(origins: &Origins, count: u16, c: u16) -> bool
    ensures { result ≡ is_input origins.now count c }
{
    c < count && origin_code(origins, c) == 1
}

// Whether c covers d, after a check with this answer. Refusals come before any comparison.
pub fn compare(
    clauses: &[u16],
    nodes: &Nodes,
    origins: &Origins,
    a: Answer,
    c: u16,
    d: u16,
) -> Covering
    requires { AfterCheck clauses.now nodes.now origins.now a }
    ensures { Compared clauses.now nodes.now origins.now a c d result }
{
    let count = a.clauses;
    if !stands(a.verdict) {
        return Err(NothingToCompare);
    }
    if !is_input(origins, count, c) || !is_input(origins, count, d) {
        return Err(NothingToCompare);
    }
    Ok(choose(
        nodes,
        origins,
        c,
        d,
        literals_cell(clauses, c),
        literals_cell(clauses, d),
    ))
}
