// Laws of the definitions: what they compute is what they literally mean.
ghost use Rattle.std.specs.Prelude.{ℕ, Bool, List, Option, ◌≡◌, ◌+◌, ◌<◌, ◌≤◌};
ghost use Rattle.ground_types.specs.Rows.{row, IsRow, IsRowByPoints, points, ArePoints};
ghost use Rattle.ground_types.specs.declared.program.Program.{Program};
ghost use Rattle.ground_types.specs.Inertia.{next_value, value_at};
ghost use Rattle.ground_types.specs.Truth.{Table};
ghost use Rattle.ground_types.specs.Recognition.{all_layers};
ghost use Rattle.ground_types.specs.Meaning.{IsLayered, IsMeaning, SaysTheSame};
ghost use Rattle.ground_types.specs.Sound.{IsSound};
ghost use Rattle.ground_types.specs.Examples.{lamp, gear, alarm, heater};

/// The row of a fluent-value over a window is the rising list of its maximal runs.
pub fn row_law()
    ensures { (test : ℕ → Bool) (w q : ℕ) → w ≤ q → IsRow test w q (row test w q) }
{}

/// A row is determined: two lists that are the rising list of the maximal runs of one truth are
/// equal.
pub fn rows_are_unique()
    ensures { (test : ℕ → Bool) (w q : ℕ) (one two : List (ℕ × ℕ)) → w ≤ q → IsRow test w q one
        → IsRow test w q two → one ≡ two }
{}

/// The row of a derived event over a window is the rising list of exactly its event points.
pub fn points_law()
    ensures { (test : ℕ → Bool) (w q : ℕ) → w ≤ q → ArePoints test w q (points test w q) }
{}

/// The row of a derived event is determined.
pub fn points_are_unique()
    ensures { (test : ℕ → Bool) (w q : ℕ) (one two : List ℕ) → ArePoints test w q one
        → ArePoints test w q two → one ≡ two }
{}

/// A list that rises and covers exactly the value points of a truth is its row.
pub fn row_by_points_law()
    ensures { (test : ℕ → Bool) (w q : ℕ) (spans : List (ℕ × ℕ)) → w ≤ q
        → IsRowByPoints test w q spans → spans ≡ row test w q }
{}

/// A simple fluent, literally: it has the opening value at the first value point, and after each
/// event point the next value.
pub fn inertia_law()
    ensures opens { (opening : Option ℕ) (initiated terminated : ℕ → List ℕ) (w : ℕ) →
        value_at opening initiated terminated w (w + 1) ≡ opening }
    ensures goes_on { (opening : Option ℕ) (initiated terminated : ℕ → List ℕ) (w t : ℕ) → w < t →
        value_at opening initiated terminated w (t + 1)
        ≡ next_value (value_at opening initiated terminated w t) (initiated t) (terminated t) }
{}

/// Where the layers of a program are in order, layer after layer gives a table in which everything
/// is as the definitions of truth, fluents and events say, in one window and over all points.
pub fn recognition_is_meaning()
    ensures { (program : Program) (opening : ℕ → Option ℕ) (occurs : ℕ → ℕ → Bool) (w : ℕ)
        → IsLayered program →
        IsMeaning program opening occurs w (all_layers program opening occurs w) }
{}

/// Where the layers of a program are in order, there is no other such table.
pub fn meaning_is_unique()
    ensures { (program : Program) (opening : ℕ → Option ℕ) (occurs : ℕ → ℕ → Bool) (w : ℕ)
        (one two : Table) → IsLayered program →
        IsMeaning program opening occurs w one → IsMeaning program opening occurs w two
        → SaysTheSame one two }
{}

/// The sample programs are sound, so soundness can be met.
pub fn samples_are_sound()
    ensures lamp { IsSound lamp }
    ensures gear { IsSound gear }
    ensures alarm { IsSound alarm }
    ensures heater { IsSound heater }
{}
