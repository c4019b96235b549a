//! Laws of the instruction table.

ghost use Rattle.std.specs.Prelude.{All, AllPairs};
ghost use Rattle.rv_table.specs.Table.{table, Excludes, Settles};

/// No word fits two rows of the table: whatever the order of the rows, each gives the instruction of every word
/// that fits it. The call does nothing; its contract is the law.
#[tactic(auto, using(crate::proofs::Rows::table_is_apart, crate::proofs::Rows::table_settles))]
pub fn rows_are_apart()
    ensures apart { AllPairs Excludes table }
    ensures settled { All (Settles table) table }
{}
