//! A text that was written determines its run.
ghost use Rattle.em_tool.specs.Headline.{TellOne};

use em_trace::texts_differ;

/// Where two runs have written the same bytes, their histories and ends are the same.
pub fn one_history()
    ensures { TellOne }
{
    texts_differ();
}
