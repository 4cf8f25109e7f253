// The eleven registers.

ghost use Rattle.std.specs.Prelude.{◌≡◌, ◌≤◌, ◌∷◌, drop, length, replicate, get_or, slice_set};
ghost use Rattle.std.specs.Option.{option_map};
ghost use Rattle.xdp_machine.specs.Values as seen;
ghost use Rattle.xdp_machine.specs.State.{register, put, first_registers};
ghost use Rattle.xdp_state.specs.Views.{value_of};
ghost use Rattle.xdp_state.specs.Cases.{Makes};

use crate::value::Value;
use std::marker::Model;

/// R0 to R10.
#[derive(Drop)]
pub struct Registers {
    values: [Value; 11],
}

impl Model for Registers {
    ghost use Rattle.std.specs.Prelude.{List, map};
    ghost use Rattle.xdp_machine.specs.Values as seen;
    ghost use Rattle.xdp_state.specs.Views.{value_of};

    ghost Value = { List seen.Value };

    ghost view = { λ r. map value_of r.values };
}

impl Registers {
    /// All hold nothing.
    pub fn new() -> Registers
        ensures { result ≡ replicate 11 seen.Unset }
    {
        Registers {
            values: [Value::Unset; 11],
        }
    }

    /// R1 is the context, R10 the end of the stack, and the others hold nothing.
    pub fn restart(&mut self)
        ensures { self.new ≡ first_registers }
    {
        self.values = [Value::Unset; 11];
        self.values[1] = Value::Context;
        self.values[10] = Value::Stack(0);
    }

    /// What a register holds.
    pub fn get(&self, r: u8) -> &Value
        requires { r ≤ 10 }
        ensures { value_of result.now ≡ register self.now r }
    {
        &self.values[r as usize]
    }

    /// Puts a value into a register, but not into R10.
    pub fn put(&mut self, r: u8, value: Value) -> bool
        requires { r ≤ 10 }
        ensures { Makes result (put self.old r (value_of value)) self.old self.new }
    {
        if r == 10 {
            return false;
        }
        self.values[r as usize] = value;
        true
    }

    /// Puts an answer into R0, and leaves nothing in R1 to R5.
    pub fn answer(&mut self, value: Value)
        ensures { self.new ≡ value_of value ∷ seen.Unset ∷ seen.Unset ∷ seen.Unset ∷ seen.Unset ∷ seen.Unset ∷ drop 6 self.old }
    {
        self.values[0] = value;
        self.values[1] = Value::Unset;
        self.values[2] = Value::Unset;
        self.values[3] = Value::Unset;
        self.values[4] = Value::Unset;
        self.values[5] = Value::Unset;
    }
}
