//! Where the cell of a pair of ids is.

ghost use Rattle.std.specs.Prelude.{◌<◌};
ghost use Rattle.program_cache.specs.declared.compiled.TheConstants.{CELLS};

use crate::cache::pair_number;
use crate::compiled::CELLS;

/// Where the cell of a pair is: which of the cells in a row to go by, level by level from the top.
#[derive(Clone, Copy)]
pub(crate) struct Place {
    pub(crate) first: usize,
    pub(crate) second: usize,
    pub(crate) third: usize,
    pub(crate) fourth: usize,
    ghost within: { (first < CELLS) × (second < CELLS) × (third < CELLS) × (fourth < CELLS) },
}

impl Place {
    ghost use Rattle.std.specs.Prelude.{◌≡◌};
    ghost use Rattle.program_cache.specs.Numbers.{IsId, number_of_place, pair_number};

    /// Returns the place of the cell of a pair of ids.
    pub(crate) fn of(writer: u32, reader: u32) -> Place
        requires writer { IsId writer }
        requires reader { IsId reader }
        ensures { number_of_place result ≡ pair_number writer reader }
    {
        let number = pair_number(writer, reader);
        Place {
            first: number / CELLS / CELLS / CELLS,
            second: number / CELLS / CELLS % CELLS,
            third: number / CELLS % CELLS,
            fourth: number % CELLS,
        }
    }
}
