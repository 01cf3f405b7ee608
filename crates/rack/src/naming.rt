// Naming: how the bytes of a word become a name.
ghost use Rattle.std.specs.Prelude.{◌≡◌, ◌<◌, ◌≤◌, length, MatchOption};
ghost use Rattle.rack.specs.Nodes.{name_of};

use crate::name::{MAX_NAME_BYTES, Name};

impl Name {
    // The name with the bytes of the word, or none if the word is longer than a name may be.
    // `new` and no `TryFrom`, as of `NonZeroU8`: there is but one refusal, with nothing to say.
    pub fn new(word: &[u8]) -> Option<Name>
        ensures { MatchOption result (16 < length word.now) (λ n. (length word.now ≤ 16) × (n ≡ name_of word.now)) }
    {
        if word.len() > MAX_NAME_BYTES {
            return None;
        }
        let mut bytes = [0; MAX_NAME_BYTES];
        // Not `get_mut(..)?`: what the array holds after a write to such a part is not known.
        bytes[..word.len()].copy_from_slice(word);
        Some(Name { bytes })
    }
}
