//! Laws of the definitions.

ghost use Rattle.shim_cosim.specs.Replays.{ReplaysAlike};

use replay_run::chan_replayer::ReplayShell;

/// Whatever design both shells run, a replay of recorded packets by either of them answers the same, with the same bytes. So `replay` over
/// `Rewrapped` makes the bytes that it makes over replayers and monitors round the design: what `Rewrapped::new` gives runs each accepted
/// design of which the file is a wrapped one (its clause `runs`), and `replay` speaks of every design that the shell runs.
pub fn replays_alike<S: ReplayShell, T: ReplayShell>(one: &S, other: &T)
    ensures { ReplaysAlike (S.runs one.now) (T.runs other.now) }
{}
