// A plan: the groups of the pieces as a table of rows.

// The table: row j marks the people in the group of piece j, and the rows behind the last piece mark nobody (SCOPE 6.1).
pub type Rows = [[bool; 8]; 70];

// How many pieces there are, and their rows.
#[derive(Clone, Copy)]
pub struct Plan {
    pub pieces: usize,
    pub rows: Rows,
}
