// SubBytes and MixColumns of one column at once, by four tables.
#![tactic(auto)]

mod tables;

ghost use Rattle.std.specs.Prelude.{◌≡◌, ◌<◌};
ghost use Rattle.columns.specs.Columns.{le, entry as entry_of, column as column_of};

use tables::TABLES;

// What a byte in row `ROW` of a column gives to the mixed column.
fn entry<const ROW: usize>(b: u8) -> u32
    requires { ROW < 4 }
    ensures { le result ≡ entry_of ROW b }
{
    TABLES[ROW][b as usize]
}

// The mixed column of the four substituted bytes, the top row in the lowest byte.
pub fn column(p: u8, q: u8, s: u8, t: u8) -> u32
    ensures { le result ≡ column_of p q s t }
{
    entry::<0>(p) ^ entry::<1>(q) ^ entry::<2>(s) ^ entry::<3>(t)
}
