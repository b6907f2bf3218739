//! Where an instance of the chain begins or ends.

ghost use Rattle.std.specs.Prelude.{◌≡◌, Some};
ghost use Rattle.sample_gen.specs.Design.{joint};
ghost use Rattle.sample_gen.specs.Joint.{joint_text};

use std::fmt;

/// Where an instance begins or ends: a side of the chain, or wires between two instances.
#[derive(Clone, Copy)]
pub(crate) enum Joint {
    Input,
    Wires(u32),
    Output,
}

impl Joint {
    /// Joint `i` of a chain of so many stages, from its input on.
    pub(crate) fn new(stages: u32, i: u32) -> Joint
        ensures { joint_text result ≡ joint stages i }
    {
        if i == 0 {
            Joint::Input
        } else if i == stages {
            Joint::Output
        } else {
            Joint::Wires(i)
        }
    }
}

impl fmt::Display for Joint {
    ghost output = { λ joint. Some (joint_text joint) };

    fn fmt<W: fmt::Write>(&self, f: &mut fmt::Formatter<W>) -> fmt::Result {
        match *self {
            Joint::Input => write!(f, "a"),
            Joint::Wires(i) => write!(f, "w{i}"),
            Joint::Output => write!(f, "b"),
        }
    }
}
