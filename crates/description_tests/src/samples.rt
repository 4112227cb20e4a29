// Descriptions that the tests share.

pub(crate) const PLAN: &str = "window(10).
step(5).
from(0).
";

pub(crate) const LAMP: &str = "window(10).
step(5).
from(0).
input up.
input down.
simple on [true].
";

pub(crate) const LAMP_RULES: &str = "initiatedAt(on=true) :- happensAt(up).
terminatedAt(on=true) :- happensAt(down).
";

pub(crate) const GEAR: &str = "window(10).
step(5).
input low_on.
input high_on.
simple gear [low, high].
initiatedAt(gear=low) :- happensAt(low_on).
initiatedAt(gear=high) :- happensAt(high_on).
";

pub(crate) const HEATER: &str = "window(10).
step(5).
input up.
input hot.
input cold.
simple on [true].
simple heat [true].
static idle [true].
initiatedAt(on=true) :- happensAt(up), not holdsAt(heat=true).
initiatedAt(heat=true) :- happensAt(hot).
terminatedAt(heat=true) :- happensAt(cold).
holdsFor(idle=true) :- relative_complement_all(on=true, [heat=true]).
";

// Two fluents that depend on each other.
pub(crate) const CYCLE: &str = "window(10).
step(5).
input up.
simple a [true].
simple b [true].
initiatedAt(a=true) :- happensAt(up), holdsAt(b=true).
initiatedAt(b=true) :- happensAt(up), holdsAt(a=true).
";

pub(crate) const MEETING: &str = "window(10).
step(5).
domain v [x].
input near(v, v).
simple met(v, v) [true].
initiatedAt(met(X, Y)=true) :- happensAt(near(X, Y)), X \\= Y.
";

// Two domains, and a name of each kind; further statements begin on line 10.
pub(crate) const PORT: &str = "window(10).
step(5).
domain ship [s1, s2].
domain quay [q1].
input lands(ship, quay).
simple moored(ship, quay) [true, false].
static busy(quay) [true].
derived seen(ship).
simple calm [true].
";
