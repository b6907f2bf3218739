//! Recordings of one design through two shells.

ghost use Rattle.shim_cosim.specs.Records.{RecordsAlike};

use replay_run::chan_monitor::Shell;
use vidi_recorder::env_script::Env;

/// Whatever design both shells run, two recordings that come to their end, one through each, answer the same, and their sinks tell the same
/// bytes. So `record_run` over `Wrapped` makes the bytes that it makes over monitors round the design: what `Wrapped::new` gives runs each accepted design of which
/// the file is a wrapped one, from its initial state (its clause `runs`), and `record_run` speaks of every design that the shell runs.
pub fn records_alike<S: Shell, T: Shell, E: Env, F: Env>(one: &S, other: &T, env: &E, its: &F)
    ensures { RecordsAlike (S.runs one.now) (T.runs other.now) (E.stands_for env.now) (F.stands_for its.now) }
{}
