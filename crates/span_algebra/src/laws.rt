// Laws of the definitions.
ghost use Rattle.std.specs.Prelude.{◌≡◌, ℕ, List};
ghost use Rattle.span_algebra.specs.declared.spans.Span.{Span};
ghost use Rattle.span_algebra.specs.Normal.{IsNormal, IsRising, covers, has};

/// A normal list of spans is fixed by the points at which it holds, whatever the size of its
/// numbers.
pub fn normal_is_unique()
    ensures { (one two : List Span) → IsNormal one → IsNormal two
        → ((t : ℕ) → covers one t ≡ covers two t) → one ≡ two }
{}

/// A rising list of points is fixed by the points that it has, whatever the size of its numbers.
pub fn rising_is_unique()
    ensures { (one two : List ℕ) → IsRising one → IsRising two → ((t : ℕ) → has one t ≡ has two t)
        → one ≡ two }
{}
