//! How long a reset is active.

ghost use Rattle.std.specs.Prelude.{◌≡◌, MatchOption};

use replay_run::chan_map::Reset;

/// For how many cycles the reset is active: 0 where there is none.
pub(crate) fn cycles_of(reset: &Option<Reset>) -> u32
    ensures { MatchOption reset.now (result ≡ 0) (λ r. result ≡ r.cycles) }
{
    match reset {
        None => 0,
        Some(reset) => reset.cycles,
    }
}
