// 23: whether the rows listed are those that enclose the next one.
ghost use Rattle.std.specs.Prelude.{◌≡◌, ◌*◌, ◌≤◌, length, map};
ghost use Rattle.rows.specs.Places.{PLACES};
ghost use Rattle.rows.specs.View.{view_of};
ghost use Rattle.renderer_rules.specs.Listed.{listed_those};
ghost use Rattle.listed_rows.specs.Numbers.{open_row};

use crate::number::listed_row;
use rows::places::AFTER;
use rows::store::place;

// Whether these rows are listed, and no others: those that enclose row `next`, of the rows from the first listed one on.
pub fn lists_those(store: &[u32], listed: &[u32], next: usize) -> bool
    requires { next * PLACES ≤ length store.now }
    ensures { result ≡ listed_those (view_of store.now) (map open_row listed.now) next }
{
    if listed.is_empty() {
        return true;
    }
    let mut found = 0;
    for row in listed_row(listed[0])..next {
        if next < place(store, row, AFTER) {
            if found == listed.len() || listed_row(listed[found]) != row {
                return false;
            }
            found += 1;
        }
    }
    found == listed.len()
}
