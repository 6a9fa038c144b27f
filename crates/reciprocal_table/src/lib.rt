// The logarithms of the cells' reciprocals, a look-up by the number of the cell.
#![tactic(auto)]

pub mod reciprocal_logs48;
