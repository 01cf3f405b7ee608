// An outlet that holds its bytes.
ghost use Rattle.std.specs.Prelude.{◌≡◌, ◌≤◌, ◌^◌, vec_len, vec_capacity};

use crate::outlet::Outlet;
use crate::put_kind::PutKind;
use std::alloc::{AllocError, Global};
use tokens::{Fault, FaultKind};

// Of a buffer that is longer, only so many bytes are used.
pub const MAX_OUTLET_BYTES: usize = 65_536;

// No outlet that holds bytes tells more pairs.
pub const MAX_OUTLET_PAIRS: u64 = 1 << 40;

// Where the kept holding ends in the bytes, and its pairs.
#[derive(Clone, Copy)]
struct Kept {
    bytes: usize,
    pairs: u64,
    ghost told: { pairs ≤ 2 ^ 40 },
}

// Holds the bytes that are put, and tells their pairs. Its memory is reserved when it is made.
#[derive(Drop)]
pub struct ByteOutlet {
    bytes: Vec<u8>,
    pairs: u64,
    room: usize,
    kept: Kept,
    ghost reserved: { room ≤ vec_capacity bytes },
    ghost few: { room ≤ 65536 },
    ghost fits: { vec_len bytes ≤ room },
    ghost begun: { kept.bytes ≤ vec_len bytes },
    ghost told: { pairs ≤ 2 ^ 40 },
}

impl ByteOutlet {
    ghost use Rattle.std.specs.Prelude.{IfOk, [], min};
    ghost use Rattle.writing.specs.ByteHoldings.{emptied};
    ghost use Rattle.writing.specs.ByteViews.{holding, kept};

    // An outlet that holds nothing, with a buffer of so many bytes, or the error that there is no memory for it.
    pub fn new(alloc: Global, size: usize) -> Result<ByteOutlet, AllocError>
        ensures { IfOk result (λ o. holding o ≡ record { bytes = []; pairs = 0; room = min size 65536 }) }
    {
        let room = size.min(MAX_OUTLET_BYTES);
        let bytes = Vec::with_capacity(alloc, room)?;
        Ok(ByteOutlet {
            bytes,
            pairs: 0,
            room,
            kept: Kept { bytes: 0, pairs: 0 },
        })
    }

    // The bytes that it holds.
    pub fn as_bytes(&self) -> &[u8]
        ensures { result.now ≡ (holding self.now).bytes }
    {
        self.bytes.as_slice()
    }

    // Drops the bytes, kept ones too, and leaves the pairs told.
    pub fn empty(&mut self)
        ensures holding { holding self.new ≡ emptied (holding self.old) }
        ensures kept { kept self.new ≡ emptied (kept self.old) }
    {
        self.bytes.clear();
        self.kept.bytes = 0;
    }
}

impl Outlet for ByteOutlet {
    ghost use Rattle.writing.specs.ByteHoldings.{ByteHolding, byte_rule, byte_laws};
    ghost use Rattle.writing.specs.ByteViews.{holding, kept};

    ghost Holding = { ByteHolding };

    ghost holding = { holding };

    ghost kept = { kept };

    ghost rule = { byte_rule };

    ghost told = { λ h. h.pairs };

    ghost laws = { byte_laws };

    fn start(&mut self) {
        self.kept = Kept {
            bytes: self.bytes.len(),
            pairs: self.pairs,
        };
    }

    fn put(&mut self, kind: PutKind, bytes: &[u8]) -> Result<(), Fault> {
        let pairs = self.pairs + kind.pairs_closed();
        let fits = bytes.len() <= self.room - self.bytes.len();
        if !kind.admits(bytes.len()) || !fits || pairs > MAX_OUTLET_PAIRS {
            return Err(Fault {
                kind: FaultKind::OutletRefused,
                place: 0,
            });
        }
        // There is room, so this is always `Ok`.
        let _ = self.bytes.extend_from_slice(bytes);
        self.pairs = pairs;
        Ok(())
    }

    fn strike(&mut self) {
        self.bytes.truncate(self.kept.bytes);
        self.pairs = self.kept.pairs;
    }

    fn pairs(&self) -> u64 {
        self.pairs
    }
}
