//! Worked examples and a law of the definitions.

ghost use Rattle.axi_burst.specs.Example.{Examples};
ghost use Rattle.axi_burst.specs.Heads.{HeadsAdvance};

/// Traces whose rules hold or are broken, and their bursts.
pub fn examples()
    ensures { Examples }
{}

/// The number of an ID's next address is that of the first with it behind its last one.
pub fn heads_advance()
    ensures { HeadsAdvance }
{}
