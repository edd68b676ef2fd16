// Joining by weights: computed by the modular inverse, or read off the stored triangle.
ghost use Rattle.field.specs.Lagrange.{Weights};

use crate::secret::Joiner;

// The weights, computed.
#[derive(Drop)]
pub struct ByInverse {
    weights: [u16; 70],
}

impl Joiner for ByInverse {
    ghost joins = { λ by k. Weights k by.weights };

    fn new(pieces: usize) -> Self {
        ByInverse {
            weights: field::weights(pieces),
        }
    }

    fn word(&self, column: &mut [u16]) -> u16 {
        field::join_word(column, &self.weights)
    }
}

// The weights, ready made.
#[derive(Drop)]
pub struct ByTriangle {
    weights: [u16; 70],
}

impl Joiner for ByTriangle {
    ghost joins = { λ by k. Weights k by.weights };

    fn new(pieces: usize) -> Self {
        ByTriangle {
            weights: triangle::weights(pieces),
        }
    }

    fn word(&self, column: &mut [u16]) -> u16 {
        field::join_word(column, &self.weights)
    }
}
