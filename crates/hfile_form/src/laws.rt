//! What holds of HFiles and of the first fault.
ghost use Rattle.std.specs.Prelude.{ℕ, List, Result};
ghost use Rattle.hb_cell.specs.declared.cell.Cell.{Cell};
ghost use Rattle.hfile_block.specs.declared.fault.HFileError.{HFileError};
ghost use Rattle.hfile_form.specs.File.{HasOneList, HasNoBoth, IsRight, IsFound};

/// One byte string has one list of cells.
pub fn one_list()
    ensures { (bytes : List ℕ) → HasOneList bytes }
{}

/// No byte string is an HFile and has a first fault.
pub fn no_fault()
    ensures { (bytes : List ℕ) (fault : HFileError) → HasNoBoth bytes fault }
{}

/// An answer that is right gives the cells of the HFile that the bytes are, unless memory ran out.
pub fn right_answers()
    ensures { (bytes : List ℕ) (answer : Result (List Cell) HFileError) → IsRight bytes answer }
{}

/// Bytes that pass each test, in the stated order, and no others, are an HFile of the cells in the end.
pub fn passes_all()
    ensures { (bytes : List ℕ) (cells : List Cell) → IsFound bytes cells }
{}
