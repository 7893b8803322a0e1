//! Cuts the input of a link into the steps of its script.
ghost use Rattle.std.specs.Prelude.{◌≡◌, ℕ, ◌+◌, ◌<◌, ◌≤◌, ◌^◌, ◌++◌, ◌∷◌, [], List, IfOk, OnOk, length, map, vec_len};
ghost use Rattle.warp_load.specs.Cutting.{IsCut, IsSameCutter, IsSmall, next_length};
ghost use Rattle.warp_load.specs.LoadScripts.{piece_allowance, step_shown, steps_for};

use poller::ScriptStep;
use std::alloc::{AllocError, Global};
use std::mem;

/// A piece has at most this many bytes.
const LONGEST_PIECE: u64 = 61;

/// A step allows at most this many bytes to be written.
const LARGEST_ALLOWANCE: u64 = 977;

/// Cuts bytes into the steps of a connection's script. Each byte is copied once, into its piece.
#[derive(Drop)]
pub(crate) struct Cutter {
    alloc: Global,
    seed: u64,
    connection: u64,
    /// The steps whose pieces are full.
    steps: Vec<ScriptStep>,
    /// The first bytes of the next step.
    piece: Vec<u8>,
}

impl Cutter {
    /// Cuts for a connection of the load of a seed.
    pub(crate) fn new(alloc: Global, seed: u64, connection: u64) -> Cutter
        requires small { (seed < 2 ^ 32) × (connection < 2 ^ 32) }
        ensures cut { IsCut result [] }
        ensures small { IsSmall result }
        ensures numbers { (result.seed ≡ seed) × (result.connection ≡ connection) }
        ensures none { vec_len result.steps ≡ 0 }
    {
        Cutter {
            alloc,
            seed,
            connection,
            steps: Vec::new(alloc),
            piece: Vec::new(alloc),
        }
    }

    /// How many bytes the next step brings.
    #[tactic(auto, unfolding(crate::specs::LoadScripts::piece_length))]
    fn next_length(&self) -> usize
        requires small { IsSmall self.now }
        requires few { vec_len self.now.steps < 2 ^ 32 }
        ensures length { result ≡ next_length self.now }
    {
        let step = self.steps.len() as u64;
        1 + ((self.seed + self.connection + step) % LONGEST_PIECE) as usize
    }

    /// How many bytes the next step allows to be written.
    #[tactic(auto, unfolding(crate::specs::LoadScripts::piece_allowance))]
    fn next_allowance(&self) -> u32
        requires small { IsSmall self.now }
        requires few { vec_len self.now.steps < 2 ^ 32 }
        ensures allowance { result ≡ piece_allowance self.now.seed self.now.connection
            (vec_len self.now.steps) }
    {
        let step = self.steps.len() as u64;
        1 + ((self.seed + 3 * self.connection + 7 * step) % LARGEST_ALLOWANCE) as u32
    }

    /// Cuts the bytes that come next.
    pub(crate) fn add(&mut self, bytes: &[u8]) -> Result<(), AllocError>
        requires small { IsSmall self.old }
        requires few { vec_len self.old.steps + length bytes.now < 2 ^ 32 }
        requires short { vec_len self.old.piece < next_length self.old }
        ensures cut { (front : List ℕ) → IsCut self.old front
            → OnOk result (IsCut self.new (front ++ bytes.now)) }
        ensures same { IsSameCutter self.old self.new }
        ensures few { OnOk result (vec_len self.new.steps ≤ vec_len self.old.steps + length bytes.now) }
        ensures short { OnOk result (vec_len self.new.piece < next_length self.new) }
    {
        let mut rest = bytes;
        while !rest.is_empty() {
            let lacking = self.next_length() - self.piece.len();
            let (next, later) = rest.split_at(lacking.min(rest.len()));
            self.fill(next)?;
            rest = later;
        }
        Ok(())
    }

    /// Puts bytes into the piece, for which it has room. A piece that is full becomes a step.
    fn fill(&mut self, bytes: &[u8]) -> Result<(), AllocError>
        requires small { IsSmall self.old }
        requires few { vec_len self.old.steps + 1 < 2 ^ 32 }
        requires room { (0 < length bytes.now)
            × (vec_len self.old.piece + length bytes.now ≤ next_length self.old) }
        ensures cut { (front : List ℕ) → IsCut self.old front
            → OnOk result (IsCut self.new (front ++ bytes.now)) }
        ensures same { IsSameCutter self.old self.new }
        ensures few { OnOk result (vec_len self.new.steps ≤ vec_len self.old.steps + 1) }
        ensures short { OnOk result (vec_len self.new.piece < next_length self.new) }
    {
        self.make_room()?;
        self.piece.extend_from_slice(bytes)?;
        if self.piece.len() == self.next_length() {
            self.close()?;
        }
        Ok(())
    }

    /// Takes memory for the next piece, where no byte of it is there yet.
    fn make_room(&mut self) -> Result<(), AllocError>
        requires small { IsSmall self.old }
        requires few { vec_len self.old.steps < 2 ^ 32 }
        ensures piece { (self.new.piece.items ≡ self.old.piece.items)
            × (vec_len self.new.piece ≡ vec_len self.old.piece) }
        ensures steps { self.new.steps ≡ self.old.steps }
        ensures same { IsSameCutter self.old self.new }
    {
        if self.piece.is_empty() {
            self.piece = Vec::with_capacity(self.alloc, self.next_length())?;
        }
        Ok(())
    }

    /// Makes a step of the piece.
    fn close(&mut self) -> Result<(), AllocError>
        requires small { IsSmall self.old }
        requires few { vec_len self.old.steps < 2 ^ 32 }
        ensures step { OnOk result (map step_shown self.new.steps.items
            ≡ map step_shown self.old.steps.items ++ (
              self.old.piece.items,
              piece_allowance self.old.seed self.old.connection (vec_len self.old.steps),
            ) ∷ []) }
        ensures empty { OnOk result ((self.new.piece.items ≡ []) × (vec_len self.new.piece ≡ 0)) }
        ensures same { IsSameCutter self.old self.new }
        ensures one { OnOk result (vec_len self.new.steps ≡ vec_len self.old.steps + 1) }
    {
        let allowance = self.next_allowance();
        let piece = mem::replace(&mut self.piece, Vec::new(self.alloc));
        self.steps.push(ScriptStep { piece, allowance })?;
        Ok(())
    }

    /// The steps for all bytes that were cut. What is left in the piece is the last one.
    pub(crate) fn finish(mut self) -> Result<Vec<ScriptStep>, AllocError>
        requires small { IsSmall self }
        requires few { vec_len self.steps < 2 ^ 32 }
        ensures steps { (front : List ℕ) → IsCut self front → IfOk result (λ steps.
            map step_shown steps.items ≡ steps_for self.seed self.connection 0 front) }
    {
        if !self.piece.is_empty() {
            self.close()?;
        }
        let Cutter { steps, .. } = self;
        Ok(steps)
    }
}
