//! Laws of the generated images.

ghost use Rattle.std.specs.Prelude.{◌≡◌, ℕ, ◌≤◌, map, slice_index, Some};
ghost use Rattle.rv_table.specs.Table.{instr_of_word};
ghost use Rattle.load_gen.specs.Programs.{breadth_first_walk, nested_additions, nest_words, walk_words};
ghost use Rattle.load_gen.specs.Walk.{edges};

/// The third edge of a node leads to that node or one before it, whatever the seed is, and so to none of a deeper
/// level. The call does nothing; its contract is the law.
pub fn third_edges_lead_no_deeper()
    ensures { (size number node : ℕ) → slice_index (edges size number node) 2 ≤ node }
{}

/// The words that the images have as text are those of the programs, instruction by instruction. The call does
/// nothing; its contract is the law.
#[tactic(auto, using(crate::proofs::Words::walk_decodes, crate::proofs::Words::nest_decodes))]
pub fn texts_are_the_programs()
    ensures walk { map instr_of_word walk_words ≡ map Some breadth_first_walk }
    ensures nest { map instr_of_word nest_words ≡ map Some nested_additions }
{}
