//! Laws of the definitions, and worked examples.

ghost use Rattle.trace_edit.specs.Example.{Examples};
ghost use Rattle.trace_edit.specs.Laws.{MoveKeeps, NoChannelNoEnd, OneMove};
ghost use Rattle.trace_edit.specs.Stories.{StoriesAlternate};

/// The worked examples.
pub fn examples()
    ensures { Examples }
{}

/// Starts and completions alternate in each epoch exactly where they do in each channel's story.
pub fn stories_alternate()
    ensures { StoriesAlternate }
{}

/// *moved completion*: a moved trace is well-formed, each channel keeps its starts, contents and completions, and the clocks change by the
/// moved completion alone.
pub fn move_keeps()
    ensures { MoveKeeps }
{}

/// A completion is moved in one way alone, unless memory runs out.
pub fn one_move()
    ensures { OneMove }
{}

/// A channel number past the last names no completion.
pub fn no_channel_no_end()
    ensures { NoChannelNoEnd }
{}
