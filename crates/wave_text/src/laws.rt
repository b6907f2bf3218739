//! Laws of the text of waves.

ghost use Rattle.wave_text.specs.Example.{FlickIsWritten};
ghost use Rattle.wave_text.specs.Reading.{WaveIsRead};

/// The text of a wave is read as this wave: no two waves have one text.
pub fn wave_is_read()
    ensures { WaveIsRead }
{}

/// The worked example has these lines.
pub fn flick_is_written()
    ensures { FlickIsWritten }
{}
