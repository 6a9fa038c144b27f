// The step table in code: its named rows, and the look-up that the engines use. The array that 01 names is made of the same rows
// (step_array).
#![tactic(auto)]

ghost use Rattle.std.specs.Prelude.{◌≡◌};
ghost use Rattle.table_numbers.specs.Rows.{row_at};

use line48::ROWS;
use table_numbers::Entry;

mod line48;
pub mod rows48;

// The row with a number in the one line of rows, three to an n; noughts outside. Inlined, so that in the steps' loop the row's numbers stay in
// registers.
#[inline(always)]
pub fn row_at(index: usize) -> [Entry; 3]
    ensures { result ≡ row_at index }
{
    if index < ROWS.len() {
        ROWS[index]
    } else {
        rows48::NO_STEP
    }
}
