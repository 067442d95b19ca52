// The places of a set, one after the other from the least.
ghost use Rattle.std.specs.Iterator.{at_most};
ghost use Rattle.places.specs.MembersTold.{NextMember};

// The places that are left.
#[derive(Drop)]
pub struct Members {
    pub rest: u64,
}

impl Iterator for Members {
    type Item = usize;

    ghost next_gives = { λ s place t. NextMember s.rest place t.rest };

    ghost remaining = { λ s. at_most s.rest };

    fn next(&mut self) -> Option<usize> {
        if self.rest == 0 {
            return None;
        }
        let place = u64::trailing_zeros(self.rest) as usize;
        self.rest &= self.rest - 1;
        Some(place)
    }
}
