//! Worked examples and a law of the definitions.

ghost use Rattle.axi_memory.specs.Example.{Examples};
ghost use Rattle.axi_memory.specs.Laws.{MemoryIsLasting};

/// What a memory offers in a run, addresses of beats, and bytes that are written.
pub fn examples()
    ensures { Examples }
{}

/// What a memory offers fits its channels, and stays until it is taken.
pub fn memory_is_lasting()
    ensures { MemoryIsLasting }
{}
