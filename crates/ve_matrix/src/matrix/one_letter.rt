ghost use Rattle.std.specs.Prelude.{◌≡◌};

use crate::Matrix;
use ve_vec::{Rows, Sparse};

/// A matrix as a table in which each letter does what the matrix does.
#[derive(Drop)]
pub(crate) struct OneLetter<'a> {
    matrix: &'a Matrix,
}

impl<'a> OneLetter<'a> {
    pub(crate) fn new(matrix: &'a Matrix) -> OneLetter<'a>
        ensures { result.matrix.now ≡ matrix.now }
    {
        OneLetter { matrix }
    }
}

impl Rows for OneLetter<'_> {
    ghost use Rattle.std.specs.Prelude.{slice_get};

    ghost rows = { λ table id letter. slice_get table.matrix.now id };

    fn row(&self, id: u32, _letter: u8) -> Option<&Sparse> {
        self.matrix.get(id)
    }
}
