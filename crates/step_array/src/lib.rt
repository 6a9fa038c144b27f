// The step table as the array that 01 names (What form to use where), over the same named rows as step_table's one line of rows. Both tables are
// statics: a constant array would be written to the stack at each call.
#![tactic(auto)]

ghost use Rattle.std.specs.Prelude.{◌≡◌};
ghost use Rattle.table_numbers.specs.Rows.{step_row, RowPromise};

use step_table::rows48;
use table_numbers::Entry;

mod array48;

// The row of step n for dx out of the array, n over rows by dx of entries by dy; noughts for what is no step or no digit.
pub fn array_row(n: usize, dx: i64) -> [Entry; 3]
    ensures value { result ≡ step_row n dx }
    ensures promise { RowPromise n dx result }
{
    if n < 1 || 40 < n {
        return rows48::NO_STEP;
    }
    if !point::is_between(-1, 1, dx) {
        return rows48::NO_STEP;
    }
    array48::row(n - 1, (dx + 1) as usize)
}
