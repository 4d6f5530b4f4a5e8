//! The table of operators: what it owes, from what each operator says.
#![tactic(auto)]

ghost use Rattle.ps_table.specs.Table.{KeptTableLaw};

/// A table of operators that keep each state that fits, and of such steps, is lawful.
pub fn kept_table_law()
    ensures { KeptTableLaw }
{}
