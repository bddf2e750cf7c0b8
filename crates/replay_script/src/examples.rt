//! The meaning of some lines and texts, evaluated from the definitions by the checker.

ghost use Rattle.replay_script.specs.Rows.{GoodLines, BadLines, WholeTexts};

/// Valid lines.
pub fn lines()
    ensures { GoodLines }
{}

/// Invalid lines.
pub fn bad_lines()
    ensures { BadLines }
{}

/// Whole texts.
pub fn scripts()
    ensures { WholeTexts }
{}
