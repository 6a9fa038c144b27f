// The array over n, each element three rows by dx of three entries by dy, at the width 48. Made by tests/tables/generate.py.
ghost use Rattle.std.specs.Prelude.{◌≡◌, ◌<◌, ◌+◌};
ghost use Rattle.table_numbers.specs.Rows.{step_row, part};

use step_table::rows48 as t;
use table_numbers::Entry;

static STEPS: [[[Entry; 3]; 3]; 40] = [
    [t::STEP_1_MINUS, t::STEP_1_ZERO, t::STEP_1_PLUS],
    [t::STEP_2_MINUS, t::STEP_2_ZERO, t::STEP_2_PLUS],
    [t::STEP_3_MINUS, t::STEP_3_ZERO, t::STEP_3_PLUS],
    [t::STEP_4_MINUS, t::STEP_4_ZERO, t::STEP_4_PLUS],
    [t::STEP_5_MINUS, t::STEP_5_ZERO, t::STEP_5_PLUS],
    [t::STEP_6_MINUS, t::STEP_6_ZERO, t::STEP_6_PLUS],
    [t::STEP_7_MINUS, t::STEP_7_ZERO, t::STEP_7_PLUS],
    [t::STEP_8_MINUS, t::STEP_8_ZERO, t::STEP_8_PLUS],
    [t::STEP_9_MINUS, t::STEP_9_ZERO, t::STEP_9_PLUS],
    [t::STEP_10_MINUS, t::STEP_10_ZERO, t::STEP_10_PLUS],
    [t::STEP_11_MINUS, t::STEP_11_ZERO, t::STEP_11_PLUS],
    [t::STEP_12_MINUS, t::STEP_12_ZERO, t::STEP_12_PLUS],
    [t::STEP_13_MINUS, t::STEP_13_ZERO, t::STEP_13_PLUS],
    [t::STEP_14_MINUS, t::STEP_14_ZERO, t::STEP_14_PLUS],
    [t::STEP_15_MINUS, t::STEP_15_ZERO, t::STEP_15_PLUS],
    [t::STEP_16_MINUS, t::STEP_16_ZERO, t::STEP_16_PLUS],
    [t::STEP_17_MINUS, t::STEP_17_ZERO, t::STEP_17_PLUS],
    [t::STEP_18_MINUS, t::STEP_18_ZERO, t::STEP_18_PLUS],
    [t::STEP_19_MINUS, t::STEP_19_ZERO, t::STEP_19_PLUS],
    [t::STEP_20_MINUS, t::STEP_20_ZERO, t::STEP_20_PLUS],
    [t::STEP_21_MINUS, t::STEP_21_ZERO, t::STEP_21_PLUS],
    [t::STEP_22_MINUS, t::STEP_22_ZERO, t::STEP_22_PLUS],
    [t::STEP_23_MINUS, t::STEP_23_ZERO, t::STEP_23_PLUS],
    [t::STEP_24_MINUS, t::STEP_24_ZERO, t::STEP_24_PLUS],
    [t::STEP_25_MINUS, t::STEP_25_ZERO, t::STEP_25_PLUS],
    [t::STEP_26_MINUS, t::STEP_26_ZERO, t::STEP_26_PLUS],
    [t::STEP_27_MINUS, t::STEP_27_ZERO, t::STEP_27_PLUS],
    [t::STEP_28_MINUS, t::STEP_28_ZERO, t::STEP_28_PLUS],
    [t::STEP_29_MINUS, t::STEP_29_ZERO, t::STEP_29_PLUS],
    [t::STEP_30_MINUS, t::STEP_30_ZERO, t::STEP_30_PLUS],
    [t::STEP_31_MINUS, t::STEP_31_ZERO, t::STEP_31_PLUS],
    [t::STEP_32_MINUS, t::STEP_32_ZERO, t::STEP_32_PLUS],
    [t::STEP_33_MINUS, t::STEP_33_ZERO, t::STEP_33_PLUS],
    [t::STEP_34_MINUS, t::STEP_34_ZERO, t::STEP_34_PLUS],
    [t::STEP_35_MINUS, t::STEP_35_ZERO, t::STEP_35_PLUS],
    [t::STEP_36_MINUS, t::STEP_36_ZERO, t::STEP_36_PLUS],
    [t::STEP_37_MINUS, t::STEP_37_ZERO, t::STEP_37_PLUS],
    [t::STEP_38_MINUS, t::STEP_38_ZERO, t::STEP_38_PLUS],
    [t::STEP_39_MINUS, t::STEP_39_ZERO, t::STEP_39_PLUS],
    [t::STEP_40_MINUS, t::STEP_40_ZERO, t::STEP_40_PLUS],
];

pub fn row(i: usize, place: usize) -> [Entry; 3]
    requires { (i < 40) × (place < 3) }
    ensures { result ≡ step_row (i + 1) (part place) }
{
    STEPS[i][place]
}
