// A row's set as ascending numbers.
ghost use Rattle.std.specs.Prelude.{◌≡◌, ◌≤◌, length};
ghost use Rattle.std.proofs.lemmas.List.Edits.{sets};
ghost use Rattle.listing.specs.Ascending.{ascending};
ghost use Rattle.rows.specs.Rows.{rows, HasRow};

use rows::{ROW_VALUES, next_in};

// The values of a row, ascending, at the front of a slice; what lies behind them stays. Answers how many there are.
pub fn list_numbers(t: &[u64], row: usize, out: &mut [u32]) -> usize
    requires { HasRow t.now row × (length (ascending (rows t.now row)) ≤ length out.old) }
    ensures { (result ≡ length (ascending (rows t.now row))) × (out.new ≡ sets out.old 0 (ascending (rows t.now row))) }
{
    let mut found: usize = 0;
    let mut v = next_in(t, row, 0, ROW_VALUES);
    // From bit to bit, as `next_in` finds them: a `for` over all values would look at each, and most rows have few.
    while v < ROW_VALUES {
        out[found] = v as u32;
        found += 1;
        v = next_in(t, row, v + 1, ROW_VALUES);
    }
    found
}
