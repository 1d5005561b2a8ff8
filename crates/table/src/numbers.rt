// A number for each slot. Past the last slot there is nothing to read and nothing to change.
ghost use Rattle.std.specs.Prelude.{◌≡◌, ℕ, List, set, get_or, replicate};

use slot::Node;
use std::marker::Model;

// In lent words of any length, one for each slot: past their end there is nothing to read and nothing to change.
pub fn number_of(numbers: &[u16], n: Node) -> u16
    ensures { result ≡ get_or numbers.now n.0 0 }
{
    let i = n.0 as usize;
    if i < numbers.len() {
        return numbers[i];
    }
    0
}

pub fn set_number(numbers: &mut [u16], n: Node, number: u16)
    ensures { numbers.new ≡ set numbers.old n.0 number }
{
    let i = n.0 as usize;
    if i < numbers.len() {
        numbers[i] = number;
    }
}

// The same of all 256 slots, in memory of its own.
#[derive(Drop)]
pub struct SlotNumbers {
    numbers: [u16; 256],
}

impl Model for SlotNumbers {
    ghost Value = { List ℕ };

    ghost view = { λ s. s.numbers };
}

impl SlotNumbers {
    pub fn filled(number: u16) -> SlotNumbers
        ensures { result ≡ replicate 256 number }
    {
        SlotNumbers {
            numbers: [number; 256],
        }
    }

    // Lent, for those who take words of any length.
    pub fn as_slice(&self) -> &[u16]
        ensures { result.now ≡ self.now }
    {
        &self.numbers[..]
    }

    pub fn get(&self, n: Node) -> u16
        ensures { result ≡ get_or self.now n.0 0 }
    {
        let i = n.0 as usize;
        if i < 256 {
            return self.numbers[i];
        }
        0
    }

    pub fn set(&mut self, n: Node, number: u16)
        ensures { self.new ≡ set self.old n.0 number }
    {
        let i = n.0 as usize;
        if i < 256 {
            self.numbers[i] = number;
        }
    }
}
