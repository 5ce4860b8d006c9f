//! A service: what operations do to its state, and its state as parts.

ghost use Rattle.std.specs.Prelude.{◌≡◌, ◌<◌, ◌≤◌, ℕ, List, length, Ok, IfOk, OnOk, OnErr};
ghost use Rattle.sha2.specs.Sha256.{sha256};
ghost use Rattle.mb_service.specs.Machine.{ServiceMachine};
ghost use Rattle.mb_service.specs.Parts.{IsShort, parts_of, AreParts, Restores};

use crate::restore::Restore;
use mb_base::{Digest, Items, NoMemory};
use std::alloc::Global;

/// How many parts a state has.
pub const PARTS: u8 = 64;

/// The most bytes of a result.
pub const MAX_RESULT: usize = 1024;

/// The most bytes of a part.
pub const MAX_PART: usize = 4_000_000;

/// A service. What contracts see of the value is its state.
pub trait Service {
    /// What the service does, on its states.
    ghost machine: { ServiceMachine Self };

    /// What contracts see of a value is a state that the service may have. The call does nothing.
    fn known(&self)
        ensures { machine.is_state self.now };

    /// Applies an operation, and gives its result. After `NoMemory` the state is as before.
    fn apply(&mut self, alloc: Global, op: &[u8]) -> Result<Items<u8>, NoMemory>
        ensures answer { IfOk result (λ r. r ≡ machine.answer self.old op.now) }
        ensures short { IfOk result IsShort }
        ensures state { OnOk result (self.new ≡ machine.after self.old op.now) }
        ensures kept { OnErr result (self.new ≡ self.old) };

    /// A part of the state.
    fn snapshot(&self, alloc: Global, part: u8) -> Result<Items<u8>, NoMemory>
        requires { part < PARTS }
        ensures part { IfOk result (λ r. r ≡ machine.part_of self.now part) }
        ensures short { IfOk result (λ r. length r ≤ MAX_PART) };

    /// The SHA-256 of a part of the state. The state stays as it is: the call may only keep what it hashed.
    fn part_digest(&mut self, alloc: Global, part: u8) -> Result<Digest, NoMemory>
        requires { part < PARTS }
        ensures digest { IfOk result (λ d. d ≡ sha256 (machine.part_of self.old part)) }
        ensures kept { self.new ≡ self.old };

    /// Takes the state of these parts in the place of its own.
    fn restore(&mut self, alloc: Global, parts: &[Items<u8>]) -> Result<(), Restore>
        requires { length parts.now ≡ PARTS }
        ensures { Restores machine.restored parts.now result self.old self.new };

    /// After each operation a state is a state.
    ghost states_stay: { (s : Self) (op : List ℕ) → machine.is_state s → machine.is_state (machine.after s op) };

    /// In a state each result is short.
    ghost answers_are_short: { (s : Self) (op : List ℕ) → machine.is_state s → IsShort (machine.answer s op) };

    /// The parts of a state give that state. So parts that give none are no state's.
    ghost parts_give_the_state: { (s : Self) → machine.is_state s → machine.restored (parts_of machine.part_of s) ≡ Ok s };

    /// A state has one list of parts: what gives it are its own.
    ghost one_list_of_parts: { (parts : List (List ℕ)) (s : Self) → AreParts parts → machine.restored parts ≡ Ok s → machine.is_state s × (parts ≡ parts_of machine.part_of s) };
}
