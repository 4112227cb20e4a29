// What follows from the definitions.
ghost use Rattle.std.specs.Prelude.{◌≡◌, ◌≤◌, ◌<◌, ◌+◌, ℕ, slice_get, true};
ghost use Rattle.ground_types.specs.Sound.{is_fluent_value};
ghost use Rattle.ground_types.specs.Truth.{holds};
ghost use Rattle.ground_types.specs.Windows.{left, right};
ghost use Rattle.query_ask.specs.Right.{Parts, table_of, IsRightForItself};
ghost use Rattle.query_ask.specs.Answers.{said, answer_in, yes_if};

/// An answer that is read off a publication which is right for itself is true: at each value point
/// of its window it is yes exactly where the fluent has the value by the point-by-point meaning.
pub fn answers_are_true()
    ensures { (parts : Parts) → IsRightForItself parts → (unit v t : ℕ) →
        is_fluent_value parts.program (slice_get parts.program.units unit) v ≡ true →
        left parts.program.plan parts.number < t →
        t ≤ right parts.program.plan parts.number + 1 →
        answer_in (said parts) unit v t ≡ yes_if (holds (table_of parts) unit v t) }
{}
