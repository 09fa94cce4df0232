ghost use Rattle.std.specs.Prelude.{◌≡◌, ◌^◌, ◌<◌};
ghost use Rattle.bench_input.specs.Generator.{next_state, coordinate};

/// The generator of the benchmark's numbers, a linear congruential one.
#[derive(Drop)]
pub struct Generator {
    pub state: u64,
}

impl Generator {
    /// The next coordinate: a number below 2^29, past a quarter of the cube's side.
    pub fn draw(&mut self) -> u32
        ensures state { self.new.state ≡ next_state self.old.state }
        ensures value { result ≡ coordinate self.new.state }
        ensures in_cube { result < 2 ^ 30 }
    {
        self.state = self
            .state
            .wrapping_mul(6_364_136_223_846_793_005)
            .wrapping_add(1_442_695_040_888_963_407);
        (self.state >> 35) as u32 + (1 << 28)
    }
}
