//! Laws of the definitions.

ghost use Rattle.trace_code.specs.Decoding.{OnePlace, OneReading, ReadsBack};
ghost use Rattle.trace_code.specs.Salvage.{FrontIsSalvaged, OneSalvage};

/// No bytes are the encoding of two traces.
pub fn one_reading()
    ensures { OneReading }
{}

/// The fault in bytes that encode no trace has one place.
pub fn one_place()
    ensures { OnePlace }
{}

/// What `decode` owes for the encoding of a trace is that trace, unless memory runs out.
pub fn reads_back()
    ensures { ReadsBack }
{}

/// No bytes are salvaged in two ways, unless memory runs out.
pub fn one_salvage()
    ensures { OneSalvage }
{}

/// Of a front of an encoding that holds the header, the packets that lie whole in it are salvaged.
pub fn front_is_salvaged()
    ensures { FrontIsSalvaged }
{}
