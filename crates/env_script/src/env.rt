//! Environments.

ghost use Rattle.std.specs.Prelude.{◌≡◌, ◌<◌, ◌+◌, ◌++◌, ◌∷◌, [], ℕ, true, false, List, Some, length, slice_get, slice_index};
ghost use Rattle.run_model.specs.trace_model.declared.channel.Channel.{Channel};
ghost use Rattle.run_model.specs.trace_model.declared.row.Row.{Row};
ghost use Rattle.run_model.specs.trace_model.Packet.{widths_of};
ghost use Rattle.run_model.specs.trace_model.Row.{IsOver, completes};
ghost use Rattle.run_model.specs.trace_model.declared.packet.TheConstants.{MOST_CYCLES};
ghost use Rattle.env_script.specs.Offer.{Offer, FitsOffer, Carries, EndsAreCompletions};

use run_model::trace_model::Row;

/// An environment of a design. It keeps its plan and stands for the list of rows that were committed, of which a new
/// one has none.
pub trait Env {
    /// What it is going to do, as plain data.
    type Plan;

    /// The plan, which stays the same.
    ghost plan: { Self → Self.Plan };

    /// The channels on which it offers, which stay the same.
    ghost channels: { Self → List Channel };

    /// What a plan offers on a channel after a list of rows.
    ghost offer: { Self.Plan → List Row → ℕ → Offer };

    /// Whether it stands for these rows.
    ghost stands_for: { Self → List Row → Type 0 };

    /// What it offers on a channel now.
    ghost current: { Self → ℕ → Offer };

    /// How many rows were committed.
    ghost committed: { Self → ℕ };

    /// Whether a content is offered on a channel; never on an outward one.
    fn valid(&self, channel: usize) -> bool
        requires { channel < length (channels self.now) }
        ensures { result ≡ (current self.now channel).valid };

    /// The number that is offered on a channel's content port, 0 while no content is offered.
    fn content(&self, channel: usize, port: usize) -> u128
        requires channel { channel < length (channels self.now) }
        requires port { port < length (widths_of (slice_get (channels self.now) channel)) }
        ensures { result ≡ slice_index (current self.now channel).content port };

    /// Whether a content would be taken on a channel; never on an inward one.
    fn ready(&self, channel: usize) -> bool
        requires { channel < length (channels self.now) }
        ensures { result ≡ (current self.now channel).ready };

    /// Goes on by a row that carries what is offered now. At most `MOST_CYCLES` rows are committed. It takes no memory.
    fn commit(&mut self, row: &Row)
        requires over { IsOver (channels self.old) row.now }
        requires carries { Carries (channels self.old) (current self.old) row.now }
        requires ends { EndsAreCompletions row.now }
        requires few { committed self.old < MOST_CYCLES }
        ensures plan { plan self.new ≡ plan self.old }
        ensures channels { channels self.new ≡ channels self.old }
        ensures committed { committed self.new ≡ committed self.old + 1 }
        ensures rows { (rows : List Row) → stands_for self.old rows → stands_for self.new (rows ++ row.now ∷ []) };

    /// What it offers now is what its plan offers after the rows that it stands for.
    ghost offers_now: { (env : Self) (rows : List Row) → stands_for env rows → (c : ℕ) → current env c ≡ offer (plan env) rows c };

    /// It stands for as many rows as were committed.
    ghost counts: { (env : Self) (rows : List Row) → stands_for env rows → length rows ≡ committed env };

    /// Whatever the rows, a channel's offer is one that it may have.
    ghost fits: { (env : Self) (rows : List Row) (c : ℕ) (channel : Channel) → slice_get (channels env) c ≡ Some channel
        → FitsOffer channel (offer (plan env) rows c) };

    /// A valid and its content stay until a row completes the channel (AMBA AXI4 IHI 0022, A3.2.1), as long as rows carry what is offered.
    ghost stays: { (env : Self) (rows : List Row) (row : Row) (c : ℕ) → Carries (channels env) (offer (plan env) rows) row
        → (offer (plan env) rows c).valid ≡ true
        → completes row c ≡ false → offer (plan env) (rows ++ row ∷ []) c ≡ offer (plan env) rows c };
}
