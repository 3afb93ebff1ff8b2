ghost use Rattle.std.specs.Prelude.{◌≡◌, ◌≤◌, replicate, slice_index, slice_set};
ghost use Rattle.ways.specs.Walks.{Low};

/// The longest walk from each point, as far as it is known.
// A fixed table indexed by the point, 0 to 64: no heap is taken, so that no call can run out of memory. The bound of a
// point stays a clause: elements hold points as bytes, which a type of points would wrap and unwrap at each use.
#[derive(Drop)]
pub struct Reach {
    walks: [u64; 65],
    ghost low: { Low walks },
}

impl Reach {
    /// No walk is known.
    pub fn new() -> Reach
        ensures { result.walks ≡ replicate 65 0 }
    {
        Reach { walks: [0; 65] }
    }

    pub fn at(&self, point: u8) -> u64
        requires { point ≤ 64 }
        ensures walk { result ≡ slice_index self.now.walks point }
        ensures low { result ≤ 6400000000000000000 }
    {
        self.walks[usize::from(point)]
    }

    pub fn set(&mut self, point: u8, walk: u64)
        requires point { point ≤ 64 }
        requires low { walk ≤ 6400000000000000000 }
        ensures { self.new.walks ≡ slice_set self.old.walks point walk }
    {
        self.walks[point as usize] = walk;
    }
}
