// How many bytes the calls of an object in memory take.
ghost use Rattle.std.specs.Prelude.{◌≡◌, ◌+◌, ◌<◌, ◌≤◌, vec_len};
ghost use Rattle.wal_outside.specs.Schedules.{next_taken};

/// The most bytes that each call takes, in turn. Once the list is over, a call takes all it can.
#[derive(Drop)]
pub struct Pieces {
    lengths: Vec<usize>,
    next: usize,
}

impl Pieces {
    pub fn new(lengths: Vec<usize>) -> Self
        ensures lengths { result.lengths.items ≡ lengths.items }
        ensures next { result.next ≡ 0 }
    {
        Pieces { lengths, next: 0 }
    }

    /// The length of the next piece, where there are `most` bytes to be taken.
    pub fn next_length(&mut self, most: usize) -> usize
        ensures value { result ≡ next_taken self.old most }
        ensures within { result ≤ most }
        ensures lengths { self.new.lengths ≡ self.old.lengths }
        ensures next { self.old.next < vec_len self.old.lengths → self.new.next ≡ self.old.next + 1 }
        ensures over { vec_len self.old.lengths ≤ self.old.next → self.new.next ≡ self.old.next }
    {
        match self.lengths.get(self.next) {
            Some(length) => {
                let length = (*length).min(most);
                self.next += 1;
                length
            }
            None => most,
        }
    }
}
