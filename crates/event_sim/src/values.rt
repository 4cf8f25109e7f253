//! What stands at each net.

ghost use Rattle.std.specs.Prelude.{◌≡◌, slice_index_or};
ghost use Rattle.net_core.specs.Value.{nothing};
ghost use Rattle.event_sim.specs.Views.{env_in};

use crate::held::Held;
use net_core::tree::{Net, Word};

/// No net.
pub const NOTHING: Word = Word { width: 0, value: 0 };

/// The words at the ports, what is stored, and the words of nets: wires, and then assigns.
#[derive(Drop)]
pub struct Values {
    pub ports: Vec<Word>,
    pub held: Held,
    pub nets: Vec<Word>,
}

/// The word at a place, or none.
pub fn word_at(words: &[Word], at: usize) -> Word
    ensures { result ≡ slice_index_or words.now at nothing }
{
    match words.get(at) {
        Some(word) => *word,
        None => NOTHING,
    }
}

/// The word of a net.
pub fn net_word(values: &Values, net: Net) -> Word
    ensures { result ≡ (env_in values.now).net net }
{
    match net {
        Net::Port(k) => word_at(&values.ports, k as usize),
        Net::Register(k) => values.held.register(k as usize),
        Net::Memory(_) => NOTHING,
        Net::Wire(k) => word_at(&values.nets, k as usize),
    }
}

/// The word of a memory at an index.
pub fn memory_word(values: &Values, memory: Net, at: usize) -> Word
    ensures { result ≡ (env_in values.now).memory_word memory at }
{
    match memory {
        Net::Memory(k) => values.held.memory_word(k as usize, at),
        Net::Port(_) | Net::Register(_) | Net::Wire(_) => NOTHING,
    }
}
