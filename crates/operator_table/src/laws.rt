//! The law of the table.
ghost use Rattle.operator_table.specs.Operators.{TableLaw};

/// Each operator, each step and each leaving of a show keeps memory and states sound.
pub fn operator_table_lawful()
    ensures { TableLaw }
{}
