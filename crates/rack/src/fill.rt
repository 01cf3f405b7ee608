// The fill of a rack: how many of its nodes are in use.
ghost use Rattle.std.specs.Prelude.{◌≡◌, ◌≤◌};

// Of a rack that is longer, only so many nodes are used.
pub const RACK_NODES: usize = 4096;

// The number of nodes in use, counted from the start of the rack.
#[derive(Drop)]
pub struct Fill {
    pub used: usize,
    ghost few: { used ≤ 4096 },
}

impl Fill {
    // A fill of no nodes.
    pub fn new() -> Fill
        ensures { result.used ≡ 0 }
    {
        Fill { used: 0 }
    }

    // How many nodes are in use.
    pub fn used(&self) -> usize
        ensures { result ≡ self.now.used }
    {
        self.used
    }
}
