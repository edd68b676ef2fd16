// The secret of a pile that passed every check, word by word, whatever joins the values of the pieces to a word.
ghost use Rattle.std.specs.Prelude.{ℕ, ◌≡◌, ◌≤◌, length};
ghost use Rattle.prime.specs.Prime.{Below};
ghost use Rattle.field.specs.Joined.{joined};
ghost use Rattle.field.specs.Secret.{column};
ghost use Rattle.joining.specs.Pile.{own_pieces, own_width, value_at};
ghost use Rattle.joining.specs.Secret.{secret};
ghost use Rattle.joining.specs.Inner.{Full, own_places};

// What joins the values of so many pieces to their word.
pub trait Joiner: Drop {
    // It joins columns of k values.
    ghost joins: { Self → ℕ → Type 0 };

    fn new(pieces: usize) -> Self
        requires { pieces ≤ 70 }
        ensures { joins result pieces };

    // The word of a column, which may give way.
    fn word(&self, column: &mut [u16]) -> u16
        requires joins { joins self.now (length column.old) }
        requires few { length column.old ≤ 70 }
        requires below { Below column.old }
        ensures { result ≡ joined column.old };
}

// Value i of each piece that is taken, that of piece j at j - 1.
fn write_column(pile: &[u8], places: &[u16], i: usize, values: &mut [u16])
    requires full { Full pile.now }
    requires places_value { places.now ≡ own_places pile.now }
    requires le_i { (1 ≤ i) × (i ≤ own_width pile.now) }
    requires values_len { length values.old ≡ own_pieces pile.now }
    ensures { values.new ≡ column (value_at pile.now) (own_pieces pile.now) i }
{
    for (j, value) in values.iter_mut().enumerate() {
        *value = pile::word(pile, places[j] as usize, 7 + i);
    }
}

// Writes the secret. The values of a word's pieces go into a list that is made once for a pile.
pub fn write_secret<J: Joiner>(pile: &[u8], places: &[u16], joiner: &J, words: &mut [u16])
    requires full { Full pile.now }
    requires places_value { places.now ≡ own_places pile.now }
    requires joins { J.joins joiner.now (own_pieces pile.now) }
    requires words_len { length words.old ≡ own_width pile.now }
    ensures { words.new ≡ secret pile.now }
{
    let mut values = [0u16; 70];
    for (i, word) in words.iter_mut().enumerate() {
        let column = &mut values[..places.len()];
        write_column(pile, places, i + 1, column);
        *word = joiner.word(column);
    }
}
