// The generator of numbers.
ghost use Rattle.std.specs.Prelude.{◌≡◌, ◌≤◌, ◌<◌, ◌^◌};
ghost use Rattle.workload_draw.specs.Workload.{next_state, drawn};

// The state of the generator.
#[derive(Drop)]
pub(crate) struct Draws {
    pub(crate) state: u64,
}

impl Draws {
    // One of the numbers below n.
    pub(crate) fn draw(&mut self, n: u64) -> u64
        requires { 1 ≤ n }
        ensures is { result ≡ drawn n self.old.state }
        ensures next { self.new.state ≡ next_state self.old.state }
        ensures below { result < n }
    {
        self.state = self
            .state
            .wrapping_mul(6_364_136_223_846_793_005)
            .wrapping_add(1_442_695_040_888_963_407);
        self.state / 2048 % n
    }
}
