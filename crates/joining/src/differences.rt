// Joining by differences alone.
ghost use Rattle.std.specs.Prelude.{ℕ, ⊤};

use crate::secret::Joiner;

// It needs nothing beside the column, whatever its length.
#[derive(Drop)]
pub struct ByDifferences;

impl Joiner for ByDifferences {
    ghost joins = { λ _ _. ⊤ };

    fn new(_pieces: usize) -> Self {
        ByDifferences
    }

    fn word(&self, column: &mut [u16]) -> u16 {
        field::join_by_differences(column)
    }
}
