// Random numbers, one from another.
ghost use Rattle.spec_basics.specs.Bounds.{Within};

/// Where a sequence of random numbers stands.
#[derive(Drop)]
pub struct Random {
    state: u32,
}

impl Random {
    /// The beginning of the sequence.
    pub fn first() -> Random {
        Random { state: 1 }
    }

    fn next(&mut self) -> u32 {
        self.state = self.state.wrapping_mul(1664525).wrapping_add(1013904223);
        self.state / 65536
    }

    /// A difference of two samples, -255 to 255.
    pub fn difference(&mut self) -> i16
        ensures { Within 255 result }
    {
        (self.next() % 511) as i16 - 255
    }

    pub fn sample(&mut self) -> u8 {
        (self.next() % 256) as u8
    }
}
