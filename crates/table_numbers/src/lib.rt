// The numbers of the tables, which specs/ lists and proofs/ proves; here is the form that code gives to one.
#![tactic(auto)]

// A logarithm in units, which a table has, or a reciprocal in 64ths, which is worked out.
#[derive(Clone, Copy)]
pub struct Entry {
    pub re: i64,
    pub im: i64,
}
