//! The first and the last row that pass a test.
ghost use Rattle.std.specs.Prelude.{◌≡◌, ℕ, ◌<◌, Bool, IfSome, find, reverse};
ghost use Rattle.column.specs.Columns.{count_up};
ghost use Rattle.ungrouped.specs.Found.{TestsBy};

// The first of so many rows that passes a test.
pub(crate) fn first_row<F: Fn(usize) -> bool>(rows: usize, test: F) -> Option<usize>
    requires { (r : ℕ) → F.pre test r }
    ensures found { (p : ℕ → Bool) → TestsBy (F.post test) p → result ≡ find p (count_up 0 rows) }
    ensures within { IfSome result (λ r. r < rows) }
{
    (0..rows).find(|row| test(*row))
}

// The last of them, looked for from the back.
pub(crate) fn last_row<F: Fn(usize) -> bool>(rows: usize, test: F) -> Option<usize>
    requires { (r : ℕ) → F.pre test r }
    ensures { (p : ℕ → Bool) → TestsBy (F.post test) p → result ≡ find p (reverse (count_up 0 rows)) }
{
    (0..rows).rev().find(|row| test(*row))
}
