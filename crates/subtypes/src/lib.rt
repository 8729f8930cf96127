// The issue subtypes, decided from their table, which stands in table.rt: the row of a code, and the code of a row. A code's two bytes are one number here,
// the first its high byte.
#![tactic(auto)]

ghost use Rattle.std.specs.Prelude.{◌≡◌, slice_get};
ghost use Rattle.format.specs.Codes.{subtypes};
ghost use Rattle.format.specs.Layout.{be};
ghost use Rattle.subtypes.specs.Rows.{Listed, row_in};

mod table;

use table::SUBTYPES;

// The table, whose rows are the definition's list.
#[tactic(auto, unfolding(format::specs::Codes::subtypes))]
fn rows() -> &'static [[u8; 2]; 58]
    ensures { Listed result.now }
{
    &SUBTYPES
}

// The two bytes of a row as a number.
fn code(row: [u8; 2]) -> u16
    ensures { result ≡ be row }
{
    u16::from_be_bytes(row)
}

// The row of two bytes in the table, which ascends; none where they are no code.
pub fn row_of(v: u16) -> Option<usize>
    ensures { result ≡ row_in v subtypes }
{
    rows().binary_search_by_key(&v, |row| code(*row)).ok()
}

// The two bytes of a row; none where there is no such row.
pub fn code_of(row: usize) -> Option<u16>
    ensures { result ≡ slice_get subtypes row }
{
    rows().get(row).map(|row| code(*row))
}
