// Sealing a list, which makes it a notation.
ghost use Rattle.std.specs.Prelude.{◌≡◌};
ghost use Rattle.notation.specs.Chains.{FirstsIn, NextsIn};
ghost use Rattle.notation.specs.Tables.{listed};
ghost use Rattle.notation.specs.Views.{open_table, sealed_table};
ghost use Rattle.notation.specs.Laws.{lawful_in};

use crate::form::Position;
use crate::function::FUNCTIONS;
use crate::list::{BYTES, OpenList, SealedList};
use crate::notation::Notation;
use crate::operator::Operator;
use crate::slots::slot_lists;

// The functions of a list by the first bytes of their spellings.
#[derive(Clone, Copy)]
struct Chains {
    firsts: [Option<u8>; BYTES],
    nexts: [Option<u8>; FUNCTIONS],
}

// Links the functions whose spellings begin with the same byte, from the last to the first.
fn link(list: &OpenList) -> Chains
    ensures firsts { FirstsIn (open_table list.now) result.firsts }
    ensures nexts { NextsIn (open_table list.now) result.nexts }
{
    let mut firsts = [None; BYTES];
    let mut nexts = [None; FUNCTIONS];
    for (function, slot) in list.slots.iter().enumerate().rev() {
        if let Some(entry) = slot {
            let byte = usize::from(entry.bytes[0]);
            nexts[function] = firsts[byte];
            firsts[byte] = Some(function as u8);
        }
    }
    Chains { firsts, nexts }
}

impl OpenList {
    // The list as a notation, to which nothing can be added.
    pub fn seal(self) -> SealedList
        ensures { sealed_table result ≡ open_table self }
    {
        let Chains { firsts, nexts } = link(&self);
        SealedList {
            list: self,
            firsts,
            nexts,
        }
    }
}

impl SealedList {
    // The function that is listed under the spelling in the position, if there is one. A function of its own, so that a wrong
    // position in the trait's answer is refused for what is answered, and for nothing of the loop.
    fn find(&self, position: Position, spelling: &[u8]) -> Option<u8>
        ensures { result ≡ listed (sealed_table self.now) position spelling.now }
    {
        let first = spelling.first()?;
        let mut next = self.firsts[usize::from(*first)];
        while let Some(function) = next {
            let slot = usize::from(function);
            if slot_lists(&self.list.slots[slot], position, spelling) {
                return Some(function);
            }
            next = self.nexts[slot];
        }
        None
    }
}

impl Notation for SealedList {
    ghost table = { sealed_table };

    ghost lawful = { λ n. lawful_in (sealed_table n) n.list.lawful };

    fn operator(&self, function: u8) -> Option<Operator<'_>> {
        self.list.operator(function)
    }

    fn listed(&self, position: Position, spelling: &[u8]) -> Option<u8> {
        self.find(position, spelling)
    }
}
